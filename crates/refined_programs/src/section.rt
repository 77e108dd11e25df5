//! Sections of a program: copies of its symbols, and cases by which its rules lead from copy to copy, with
//! certificates.

use crate::affine::Affine;
use its_model::Name;

/// A copy of a symbol, with the forms over its places that are at least 0 there.
#[derive(Debug, PartialEq, Eq, Drop)]
pub struct SymbolCopy {
    pub name: Name,
    /// The number of the symbol.
    pub over: u32,
    /// The forms, each with a coefficient for each place, and a constant.
    pub facts: Vec<Affine>,
}

/// Multipliers: a number for each row of a rule.
#[derive(Debug, PartialEq, Eq, Drop)]
pub struct Multipliers {
    pub numbers: Vec<u64>,
}

/// How a rule leads from a copy of its source.
#[derive(Debug, PartialEq, Eq, Drop)]
pub enum Cases {
    /// To a copy, with multipliers for each of its facts: they show that no values meet the guard along the path such
    /// that the fact fails after the rule.
    To {
        copy: u32,
        by: Vec<Multipliers>,
    },
    /// Nowhere: the multipliers show that no values meet the guard along the path.
    Never {
        by: Multipliers,
    },
    /// By whether a form over the rule's left and free variables is at least 0.
    If {
        test: Affine,
        yes: Box<Cases>,
        no: Box<Cases>,
    },
}

/// The cases of a rule at a copy of its source.
#[derive(Debug, PartialEq, Eq, Drop)]
pub struct Branch {
    /// The number of the copy.
    pub source: u32,
    /// The number of the rule.
    pub rule: u32,
    pub cases: Cases,
}

/// Copies of a program's symbols, numbered from 0, the first one being the start, and the branches of its rules.
#[derive(Debug, PartialEq, Eq, Drop)]
pub struct Section {
    pub copies: Vec<SymbolCopy>,
    pub branches: Vec<Branch>,
}
