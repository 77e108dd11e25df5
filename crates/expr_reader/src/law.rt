//! A law about atoms and about single signs: their worked values.

ghost use Rattle.expr_reader.specs.Worked.{WorkedValues};

/// Worked values: the differences of each relation, where an atom has a fault, and the effects of single signs and
/// numbers on an expression. The function has no code: its contract is the law.
pub fn worked_values_hold()
    ensures { WorkedValues }
{}
