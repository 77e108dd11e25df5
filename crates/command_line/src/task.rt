//! What commands do, by the form of their operands: a command is one task of one form.

/// What is done with the program in a file.
#[derive(Clone, Copy, Debug, PartialEq, Eq)]
pub enum ProgramTask {
    /// `analyse`: the analysis of the program.
    Analyse,
    /// `prove`: the proofs of the bounds that the analysis finds.
    Prove,
    /// `facts`: the facts that are kept at its locations, and its analysis with them.
    Facts,
    /// `best`: the bounds on it that any search finds and the checker of proof files accepts.
    Best,
    /// `certify`: a proof file of such bounds.
    Certify,
}

/// What is done with the program in a file and another file about it.
#[derive(Clone, Copy, Debug, PartialEq, Eq)]
pub enum PairTask {
    /// `check`: the check of the proofs in the second file against the program.
    Check,
    /// `replay`: the replay of the run in the second file, of the program.
    Replay,
    /// `lasso`: whether the turn of the lasso in the second file, of the program, leads back, or moves on.
    Lasso,
}

/// What is done with a file of another kind than a program's.
#[derive(Clone, Copy, Debug, PartialEq, Eq)]
pub enum FileTask {
    /// `lp`: the exact end of the simplex method on the linear program in it.
    Lp,
    /// `translate`: the integer transition system of the while program in it.
    Translate,
}

/// What is done with a number.
#[derive(Clone, Copy, Debug, PartialEq, Eq)]
pub enum NumberTask {
    /// `generate`: the generated program of the number.
    Generate,
    /// `selfrun`: the figures of the analysis of that program.
    Selfrun,
}
