//! Reserves room for one more token.

ghost use Rattle.std.specs.Prelude.{IsTrue};
ghost use Rattle.expr_reader.specs.Variables.{names_in};
ghost use Rattle.expr_reader.specs.Standing.{HasRoom};

use expr_reader::{Expression, Variables};

/// Whether one more token can be counted, and one more variable numbered. Memory never holds so many that this fails.
pub(crate) fn has_room(expression: &Expression, variables: &Variables<'_>) -> bool
    ensures { IsTrue result → HasRoom (names_in variables.now) expression.now }
{
    expression.level.minuses < u32::MAX
        && expression.tokens < usize::MAX
        && variables.count() < u32::MAX as usize
}
