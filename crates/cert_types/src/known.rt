//! The bounds that are known where a node is checked, as a trait with a meaning; and a list of stated facts that
//! implements it.

ghost use Rattle.std.specs.Prelude.{◌≡◌};
ghost use Rattle.cert_program.specs.cert_rules.Known.{Table, table_of};
ghost use Rattle.cert_types.specs.Views.{facts_of};
ghost use Rattle.cert_types.specs.Lookups.{optional_bound};

use crate::fact::Fact;
use crate::lookup::{size_in, time_in};
use bound_expr::Bound;

/// The bounds known where a node is checked: times of rules, and sizes of places after rules.
///
/// Its meaning is `table`: for each rule its time, and for each place after a rule its size, if they are known.
pub trait Known {
    ghost table: { Self → Table };

    /// The time of a rule, where it is known. Rule 0 is the virtual entry.
    fn time(&self, rule: u32) -> Option<&Bound>
        ensures { optional_bound result ≡ (table self.now).time rule };

    /// The size of a place after a rule, where it is known. Places count from 1.
    fn size(&self, rule: u32, place: u32) -> Option<&Bound>
        ensures { optional_bound result ≡ (table self.now).size rule place };
}

/// Facts that were stated: the first time of each rule is known, and the first size of each place.
#[derive(Clone, Copy, Debug)]
pub struct Stated<'a> {
    pub facts: &'a [Fact],
}

impl<'a> Known for Stated<'a> {
    ghost table = { λ stated. table_of (facts_of stated.facts.now) };

    fn time(&self, rule: u32) -> Option<&Bound> {
        time_in(self.facts, rule)
    }

    fn size(&self, rule: u32, place: u32) -> Option<&Bound> {
        size_in(self.facts, rule, place)
    }
}
