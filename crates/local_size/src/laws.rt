//! Laws of the answers for places. No function here has code: the contract of each is a law.

ghost use Rattle.local_size.specs.LocalLaws.{LocalBoundsAreAccepted, LocalBoundsAreFirst, UnboundedAnswersAreUnbounded};
ghost use Rattle.local_size.specs.LocalLaws.{LocalAnswersAreExact, LocalAnswersAreOne};
ghost use Rattle.local_size.specs.WorkedLocals.{LocalValuesAreWorkedOut};

/// Both side bounds of an answer are accepted for the place, whatever other facts are known.
pub fn local_bounds_are_accepted()
    ensures { LocalBoundsAreAccepted }
{}

/// If the rule has a point, each side bound is the first one of its side: no form of an earlier kind is at least the
/// value on all rational points, and no such form of its own kind weighs less.
pub fn local_bounds_are_first()
    ensures { LocalBoundsAreFirst }
{}

/// An unbounded answer has a ray along which the value on its side increases while no left argument changes, and a
/// point; so no affine form in the left arguments bounds the side.
pub fn unbounded_answers_are_unbounded()
    ensures { UnboundedAnswersAreUnbounded }
{}

/// The answer is `UnboundedSide` exactly if a side of the place is unbounded and no question hits a limit, and
/// `OutOfLimits` exactly if one does.
pub fn local_answers_are_exact()
    ensures { LocalAnswersAreExact }
{}

/// A place has one answer within a number of pivots.
pub fn local_answers_are_one()
    ensures { LocalAnswersAreOne }
{}

/// Worked values of the questions about places, of which side bound is the first of a side, and of which sides are
/// unbounded, on both sides.
pub fn local_values_are_as_worked_out()
    ensures { LocalValuesAreWorkedOut }
{}
