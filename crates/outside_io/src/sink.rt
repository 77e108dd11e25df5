//! The sink: where pieces of text are put.

ghost use Rattle.std.specs.Prelude.{◌≡◌, ℕ, ◌≤◌, List, Option, OnOk, OnErr, IsSome};
ghost use Rattle.std.specs.Io.KnownBytes.{Appends};
ghost use Rattle.outside_io.specs.Counts.{Rose, one_more};
ghost use Rattle.outside_io.specs.Putting.{AppendsPrefix};

/// A fault of a sink: not all of the piece was written, or a fault came with it.
#[derive(Clone, Copy, Debug, PartialEq, Eq, Hash)]
pub struct PutFailed;

/// A sink into which pieces of text are put, one after the other.
///
/// Its meanings are `written`, all bytes that were written, if it discloses them; `puts`, how many puts were asked for,
/// if it discloses that; and `faults`, a count of faults. Both counts are kept in a `u64` and stay at its maximum.
pub trait Sink {
    ghost written: { Self → Option (List ℕ) };

    ghost puts: { Self → Option ℕ };

    ghost faults: { Self → ℕ };

    /// Appends the piece to what was written. Each call counts as one put, whatever its result.
    ///
    /// Errors: `PutFailed`, only where `faults` rose in this call; then a prefix of the piece was appended, which may
    /// be empty or all of it.
    fn put(&mut self, piece: &[u8]) -> Result<(), PutFailed>
        ensures keeps_disclosing { IsSome (written self.old) → IsSome (written self.new) }
        ensures keeps_count { faults self.old ≤ faults self.new }
        ensures counted { puts self.new ≡ one_more (puts self.old) }

        ensures ok { OnOk result (Appends (written self.old) (written self.new) piece.now) }

        ensures failed { OnErr result (Rose (faults self.old) (faults self.new)) }
        ensures prefix { OnErr result (AppendsPrefix (written self.old) (written self.new) piece.now) };
}
