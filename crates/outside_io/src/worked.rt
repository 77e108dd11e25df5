//! Worked values of the definitions.

ghost use Rattle.outside_io.specs.WorkedPuts.{CountsRise, PrefixesAreLeft};

/// Worked values of counts that rise, and of a put that fails and leaves a prefix of its piece. The function has no
/// code: its contract is these values.
pub fn worked_puts_hold()
    ensures counts { CountsRise }
    ensures prefixes { PrefixesAreLeft }
{}
