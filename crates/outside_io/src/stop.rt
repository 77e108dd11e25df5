//! Faults that a sink in memory is set to have.

ghost use Rattle.std.specs.Prelude.{◌≡◌, min, unwrap_or};
ghost use Rattle.outside_io.specs.Stops.{stop_bytes};

/// A put that has to fail, and how many bytes of its piece go out: at most the whole piece.
#[derive(Clone, Copy, Debug, PartialEq, Eq, Hash)]
pub struct Stop {
    /// The number of the put; puts are numbered from 1.
    pub call: u64,
    /// How many bytes of the piece it lets out.
    pub bytes: u64,
}

// How many bytes the first stop of this call lets out, if a stop names the call.
pub(crate) fn first_stop(stops: &[Stop], call: u64) -> Option<u64>
    ensures { result ≡ stop_bytes stops.now call }
{
    stops
        .iter()
        .find(|stop| stop.call == call)
        .map(|stop| stop.bytes)
}

// How many bytes of a piece of `len` bytes go out past a stop, where there is room for `left` more.
pub(crate) fn out_count(stop: Option<u64>, len: usize, left: usize) -> usize
    ensures { result ≡ min (min (unwrap_or stop len) len) left }
{
    let len = len as u64;
    stop.unwrap_or(len).min(len).min(left as u64) as usize
}
