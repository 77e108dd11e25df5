//! Laws of written expressions and guards.

ghost use Rattle.expr_text.specs.Limited.{LimitedAlike};
ghost use Rattle.expr_text.specs.Worked.{WorkedValues};

/// Worked values of which pieces are an expression or a guard, and of the terms that they denote. The function has no
/// code: its contract is the law.
pub fn worked_values_hold()
    ensures { WorkedValues }
{}

/// Replacing each exponent over the limit on degrees by the limit plus one changes no refusal of an expression, and an
/// expression that isn't refused has no such exponent.
pub fn limited_alike()
    ensures { LimitedAlike }
{}
