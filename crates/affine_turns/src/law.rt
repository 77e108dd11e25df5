//! The laws of turns that pass the test of moving on.

ghost use Rattle.affine_turns.specs.Laws.{AffineValuesAreRight, SeenTurnsGoOn};
ghost use Rattle.affine_turns.specs.Worked.{ExpressionsAreSeen, RelationsAreKept, TurnsAreSeen};

/// An expression that the test finds affine has that affine value in each turn; and a turn moves on if each of its
/// steps passes the test and the values after it change as those before it. The function has no code: its contract is
/// the laws. (Runs whose values grow by the same amounts are the simplest of those in Leike and Heizmann, Geometric
/// Nontermination Arguments, 2018.)
pub fn seen_turns_go_on()
    ensures values { AffineValuesAreRight }
    ensures turns { SeenTurnsGoOn }
{}

/// Worked values: small expressions and turns that pass the test, and some that don't.
pub fn worked_turns_hold()
    ensures expressions { ExpressionsAreSeen }
    ensures relations { RelationsAreKept }
    ensures turns { TurnsAreSeen }
{}
