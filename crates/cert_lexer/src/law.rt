//! The bounds that are read inside proof files.

ghost use Rattle.cert_lexer.specs.Bounds.{BoundsAreSpelled, BoundsAreAnswered};
ghost use Rattle.cert_lexer.specs.WorkedBounds.{BoundsAreWorkedOut};

/// A tidy bound within the limits is the answer to the pieces that spell it. The function has no code: its contract is
/// the law.
pub fn bounds_are_answered()
    ensures { BoundsAreAnswered }
{}

/// A bound that is the answer to pieces is tidy, within the limits and spelled by them. The function has no code: its
/// contract is the law.
pub fn bounds_are_spelled()
    ensures { BoundsAreSpelled }
{}

/// Worked values, on both sides, of where bounds at the limit of levels are refused inside a proof file, and of which
/// of two refusals comes first. The function has no code: its contract is these values.
pub fn worked_bounds_hold()
    ensures { BoundsAreWorkedOut }
{}
