//! A limit on how many bases a linear program has.

ghost use Rattle.std.specs.Prelude.{◌≡◌, ◌+◌};
ghost use Rattle.simplex_core.specs.Problem.{program_of};
ghost use Rattle.bland_end.specs.Counting.{choose, bases_of, below_limit};

use simplex_core::Problem;

/// An upper bound on the number of bases of a linear program: the number of sets of as many unknowns as there are rows,
/// chosen from its columns and one artificial unknown for each row. None exactly if there are at least 2^32 such sets.
pub fn bases(problem: &Problem) -> Option<u32>
    ensures { result ≡ below_limit (bases_of (program_of problem.now)) }
{
    if problem.cols < problem.rows {
        count_sets(problem.rows, problem.cols)
    } else {
        count_sets(problem.cols, problem.rows)
    }
}

/// How many sets of `chosen` things can be chosen from `others` plus `chosen` things, if there are fewer than 2^32. If
/// `chosen` is the lesser number, the loop ends after at most 17 rounds: with 18 others the 17th round already finds
/// too many sets.
fn count_sets(others: u32, chosen: u32) -> Option<u32>
    ensures { result ≡ below_limit (choose (others + chosen) chosen) }
{
    let mut sets: u128 = 1;
    let mut taken: u32 = 0;
    while taken < chosen {
        taken += 1;
        sets = sets * (u128::from(others) + u128::from(taken)) / u128::from(taken);
        if sets > u128::from(u32::MAX) {
            return None;
        }
    }
    Some(sets as u32)
}
