/// The cases of rewriting: what each does at a node of a bound.
#[derive(Clone, Copy, Debug, PartialEq, Eq, Hash)]
pub enum Case {
    /// A sum in a sum, a product in a product and a maximum in a maximum is replaced by its parts, in place.
    Flat,
    /// Two or more constants become one, at the position of the first, if the result is at most 2^127-1; else none is
    /// folded.
    FoldConst,
    /// A product with a factor 0 becomes 0.
    ZeroProduct,
    /// Zeros of a sum or maximum and ones of a product are dropped.
    Neutral,
    /// A power with a constant exponent becomes a constant, where that is at most 2^127-1.
    PowerConst,
    /// A power of a sum with a constant n among its parts, the first one, becomes the product of c^n and the power of
    /// the other parts, a single one by itself, where c is the base and c^n is at most 2^127-1.
    PowerShift,
    /// Each longest run of neighbouring factors that are powers of one base, at least two, becomes one power of that
    /// base, whose exponent is the sum of theirs. An exponent that is a sum contributes its parts.
    PowerMerge,
    /// A product with a sum among its factors becomes the sum, over the parts of the first such factor, of the product
    /// with that part in its place; a product in that place contributes its factors, and a single factor replaces its
    /// product. It does so where the numbers of parts of all the sums among its factors multiply to at most 64, and the
    /// result has at most 4,096 nodes.
    Distribute,
    /// Factors are sorted by kind and then structurally. Other parts are sorted by the number of powers, sums, maximums
    /// and variables among their factors, more first, then by the factors, and then by the constant, greater first.
    /// Equal parts keep their order.
    Order,
    /// Each longest run of neighbouring parts of a sum with the same factors becomes one part, the sum of their
    /// constants times these factors, where that sum is at most 2^127-1.
    Like,
    /// A part of a maximum that is below another one is dropped.
    Dominate,
    /// A node without parts becomes a constant, and a node with a single part becomes that part.
    Few,
}

/// A table of N cases, which are tried at each node in order.
#[derive(Clone, Copy, Debug, PartialEq, Eq, Hash)]
pub struct Cases<const N: usize> {
    /// The cases, first to last.
    pub list: [Case; N],
}

/// The table of eight cases: all but those that evaluate, shift and merge powers and the one that multiplies out.
pub const SMALL: Cases<8> = Cases {
    list: [
        Case::Flat,
        Case::FoldConst,
        Case::ZeroProduct,
        Case::Neutral,
        Case::Order,
        Case::Like,
        Case::Dominate,
        Case::Few,
    ],
};

/// The table of all twelve cases.
pub const LARGE: Cases<12> = Cases {
    list: [
        Case::Flat,
        Case::FoldConst,
        Case::ZeroProduct,
        Case::Neutral,
        Case::PowerConst,
        Case::PowerShift,
        Case::PowerMerge,
        Case::Distribute,
        Case::Order,
        Case::Like,
        Case::Dominate,
        Case::Few,
    ],
};

/// The kinds of nodes that hold parts.
#[derive(Clone, Copy, Debug, PartialEq, Eq)]
pub enum Kind {
    /// A sum.
    AsSum,
    /// A product.
    AsProd,
    /// A maximum.
    AsMax,
}

/// The sorts of bounds that are counted or searched among others.
#[derive(Clone, Copy, Debug, PartialEq, Eq)]
pub(crate) enum Counted {
    /// Constants.
    Constants,
    /// Constants 0.
    Zeros,
    /// Powers.
    Powers,
    /// Sums and maximums.
    Nests,
    /// Variables.
    Inputs,
}

/// The context in which a bound is paired with another that it is below.
#[derive(Clone, Copy, Debug, PartialEq, Eq)]
pub(crate) enum Pairing {
    /// Parts of a sum.
    AsTerms,
    /// Factors.
    AsFactors,
}

/// Neighbours that are joined.
#[derive(Clone, Copy, Debug, PartialEq, Eq)]
pub(crate) enum Joining {
    /// Parts of a sum that have the same factors.
    AsLikes,
    /// Factors of a product that are powers of one base.
    AsPowers,
}
