//! The statuses with which the program ends.

/// The status with which the program ends. Its number is its position in this list, from 0.
#[derive(Clone, Copy, Debug, PartialEq, Eq)]
pub enum Status {
    /// With `analyse`, the report was written, with `facts`, the facts and the report, with `prove`, the proof file,
    /// and with `selfrun`, the figures of the generated program; every rule has a time, and every rule with a cost a
    /// bound on it. With `check`, the proof is accepted, and its facts were written. With `replay`, the tally along the
    /// run was written, with `lasso`, the rules of a turn that leads back or is shown to move on, with `generate`, the
    /// program's text, and with `lp`, the end of the simplex method. With `while`, the positions of the statements and
    /// the report of the translation were written, and with `translate`, the translation.
    Done,
    /// With `analyse`, the report was written, with `facts`, the facts and the report, with `prove`, the proof file,
    /// with `selfrun`, its figures, and with `while`, the report of the translation; some rule has no time, or some
    /// rule with a cost no bound on it. With `lp`, the end isn't reached, and why was written.
    Unknown,
    /// The words aren't a command line.
    Usage,
    /// A file couldn't be read.
    ReadFault,
    /// The text couldn't be written whole.
    WriteFault,
    /// Memory ran out. Nothing was written.
    Memory,
    /// The program text is refused; with `lp` the text of the linear program, and with `while` and `translate` that of
    /// the while program.
    ProgramRefused,
    /// With `check`, the program was read, and the proof text is refused.
    ProofRefused,
    /// With `check`, both were read, and the proof isn't accepted.
    NotAccepted,
    /// With `replay` and `lasso`, the program was read, and the text of the run, or of the lasso, is refused.
    RunRefused,
    /// With `replay` and `lasso`, both were read, and the steps are no run within 128 bits; or, with `lasso`, its turn
    /// leads elsewhere, or isn't shown to move on.
    NotARun,
}

impl Status {
    ghost use Rattle.std.specs.Prelude.{◌≡◌};
    ghost use Rattle.call_plans.specs.Numbers.{number_of};

    /// The number with which the process ends, from 0 to 10.
    pub fn code(self) -> u8
        ensures { result ≡ number_of self }
    {
        self as u8
    }
}
