//! Assembles the parts of a rule.

ghost use Rattle.std.specs.Prelude.{◌≡◌, map, IfOk, OnOk};
ghost use Rattle.its_model.specs.Views.{name_of, rule_of};
ghost use Rattle.expr_reader.specs.Variables.{names_in};
ghost use Rattle.its_reader.specs.TailSteps.{rule_in, RuleEnds};

use crate::draft::{Draft, RuleDraft};
use crate::symbols::to_u32;
use expr_reader::Variables;
use its_model::{Name, Rule};
use model::Memory;
use std::alloc::Global;
use std::mem;

/// The name with these bytes.
pub(crate) fn name_from(alloc: Global, bytes: &[u8]) -> Result<Name, Memory>
    ensures { IfOk result (λ name. name_of name ≡ bytes.now) }
{
    Ok(Name {
        bytes: bytes.to_vec(alloc)?,
    })
}

/// The names of variables, in order.
pub(crate) fn names_from(alloc: Global, variables: &Variables<'_>) -> Result<Vec<Name>, Memory>
    ensures { IfOk result (λ names. map name_of names.items ≡ names_in variables.now) }
{
    let mut names = Vec::new(alloc);
    while let Some(name) = variables.names().get_index(names.len()) {
        let copy = name_from(alloc, name)?;
        names.push(copy)?;
    }
    Ok(names)
}

impl<'a> RuleDraft<'a> {
    // The rule, with numbered symbols and variables.
    fn into_rule(mut self, alloc: Global) -> Result<Rule, Memory>
        ensures { IfOk result (λ rule. rule_of rule ≡ rule_in self.entry) }
    {
        let names = names_from(alloc, &self.variables)?;
        let count = to_u32(self.variables.count())?;
        let guard = self.guard.take_atoms(alloc);
        Ok(Rule {
            source: self.source,
            target: self.target,
            left: self.left,
            free: count.saturating_sub(self.left),
            names,
            updates: self.updates,
            guard,
            cost: self.cost,
        })
    }
}

impl<'a> Draft<'a> {
    /// Ends the rule.
    pub(crate) fn end_rule(&mut self, alloc: Global) -> Result<(), Memory>
        ensures { OnOk result (RuleEnds self.old self.new) }
    {
        let rule = mem::replace(&mut self.rule, RuleDraft::new(alloc));
        self.rules.push(rule.into_rule(alloc)?)?;
        Ok(())
    }
}
