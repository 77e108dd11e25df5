//! What has been read of a program so far.

ghost use Rattle.std.specs.Prelude.{◌≡◌, []};
ghost use Rattle.its_text.specs.StateFaults.{Tokens};
ghost use Rattle.its_reader.specs.Standing.{KnowsRules, KnowsBetween, IsFreshRule};

use crate::symbols::Symbols;
use expr_reader::{Expression, GuardReader, Variables};
use its_model::Rule;
use poly_terms::Expr;
use std::alloc::Global;

/// The start symbol, and its position in the text.
#[derive(Clone, Copy)]
pub(crate) struct Start<'a> {
    pub name: &'a [u8],
    pub at: usize,
}

/// The sections so far.
#[derive(Clone, Copy)]
pub(crate) struct Sections<'a> {
    pub goal: bool,
    pub variables: bool,
    pub rules: bool,
    pub start: Option<Start<'a>>,
}

/// What has been read of the current rule.
#[derive(Drop)]
pub(crate) struct RuleDraft<'a> {
    /// The symbol of the current term.
    pub name: &'a [u8],
    /// The variables, the left ones first.
    pub variables: Variables<'a>,
    /// How many of them are left ones.
    pub left: u32,
    /// The number of its source.
    pub source: u32,
    /// The number of its target.
    pub target: u32,
    /// Whether the last term has another number of arguments than its symbol has places.
    pub differs: bool,
    /// Its right arguments.
    pub updates: Vec<Expr>,
    /// The current argument or cost.
    pub expression: Expression,
    /// The current guard.
    pub guard: GuardReader,
    /// Its cost, if one is written.
    pub cost: Option<Expr>,
}

/// What has been read of the program so far.
#[derive(Drop)]
pub(crate) struct Draft<'a> {
    pub sections: Sections<'a>,
    pub symbols: Symbols<'a>,
    pub rules: Vec<Rule>,
    pub rule: RuleDraft<'a>,
}

impl<'a> RuleDraft<'a> {
    /// Nothing is known yet.
    pub(crate) fn new(alloc: Global) -> RuleDraft<'a>
        ensures { IsFreshRule result }
    {
        RuleDraft {
            name: b"",
            variables: Variables::new(alloc),
            left: 0,
            source: 0,
            target: 0,
            differs: false,
            updates: Vec::new(alloc),
            expression: Expression::new(alloc),
            guard: GuardReader::new(alloc),
            cost: None,
        }
    }
}

impl<'a> Draft<'a> {
    /// Nothing is known yet.
    pub(crate) fn new(alloc: Global) -> Draft<'a>
        ensures { (ts : Tokens) → KnowsBetween ts [] result }
    {
        Draft {
            sections: Sections {
                goal: false,
                variables: false,
                rules: false,
                start: None,
            },
            symbols: Symbols::new(alloc),
            rules: Vec::new(alloc),
            rule: RuleDraft::new(alloc),
        }
    }

    /// A section of rules begins.
    pub(crate) fn begin_rules(&mut self, alloc: Global)
        ensures sections { self.new.sections ≡ self.old.sections }
        ensures rules { KnowsRules [] self.new }
        ensures fresh { IsFreshRule self.new.rule }
    {
        self.symbols = Symbols::new(alloc);
        self.rules = Vec::new(alloc);
        self.rule = RuleDraft::new(alloc);
    }
}
