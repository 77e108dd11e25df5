//! Laws of the answers to while programs. The functions here have no code: the contract of each is the law, or values
//! that were worked out by hand.

ghost use Rattle.while_answer.specs.Laws.{WhileTextsAreDecided, ExecutionsFollowRuns};
ghost use Rattle.while_answer.specs.Worked.{TextsAreWorkedOut, StepsAreWorkedOut};

use while_model::worked_values_hold;

/// A text spells at most one while program within the limits, and has at most one first fault, and not both.
pub fn while_texts_are_decided()
    ensures { WhileTextsAreDecided }
{}

/// The translation of a while program within the limits is valid, the program's executions end with the same values as
/// the translation's runs, and a bound on the total cost of these runs bounds the steps of the executions.
pub fn executions_follow_runs()
    ensures { ExecutionsFollowRuns }
{}

/// The texts of positions and refusals, and bounds on the steps of small programs: those that hold, and those that
/// don't.
pub fn worked_answers_hold()
    ensures texts { TextsAreWorkedOut }
    ensures steps { StepsAreWorkedOut }
{
    worked_values_hold();
}
