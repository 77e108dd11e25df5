//! The limits of a signed bound.

ghost use Rattle.std.specs.Prelude.{◌≡◌};
ghost use Rattle.signed_bounds.specs.Limits.{constant_limit, node_limit, depth_limit, product_limit};
ghost use Rattle.signed_bounds.specs.Limits.{expansion_limit, comparison_limit, quotient_limit};

/// The maximum constant of a bound, and the maximum number that a comparison computes: 2^127-1.
pub const CONSTANT_LIMIT: u128 = 0x7fff_ffff_ffff_ffff_ffff_ffff_ffff_ffff;

/// The maximum number of nodes of a bound.
pub const NODE_LIMIT: u64 = 4096;

/// The maximum number of levels of a bound.
pub const DEPTH_LIMIT: u32 = 200;

/// The maximum number of products that a comparison multiplies a bound out into.
pub const PRODUCT_LIMIT: u64 = 4096;

/// The maximum of the number of products that a comparison multiplies a bound out into, times the number of its nodes.
pub const EXPANSION_LIMIT: u64 = 262_144;

/// The maximum of the sizes of two sums of products, multiplied, that are compared. The size of a sum of products is 1
/// for each product and for each node of its factors.
pub const COMPARISON_LIMIT: u64 = 131_072;

/// The maximum number of quotients by the common denominator that a comparison takes apart.
pub const QUOTIENT_LIMIT: usize = 16;

/// The law that the constants of the code are the limits of the definitions. It does nothing.
pub fn limits_are_as_defined()
    ensures constants { CONSTANT_LIMIT ≡ constant_limit }
    ensures nodes { NODE_LIMIT ≡ node_limit }
    ensures depth { DEPTH_LIMIT ≡ depth_limit }
    ensures products { PRODUCT_LIMIT ≡ product_limit }
    ensures expansions { EXPANSION_LIMIT ≡ expansion_limit }
    ensures comparisons { COMPARISON_LIMIT ≡ comparison_limit }
    ensures quotients { QUOTIENT_LIMIT ≡ quotient_limit }
{}
