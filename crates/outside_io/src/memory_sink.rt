//! A sink in memory, which fails at chosen calls.

ghost use Rattle.std.specs.Prelude.{◌≡◌, ◌≤◌, ◌↔◌, ℕ, List, [], ◌++◌, Option, None, Some, IfOk, IsOk, OnOk, OnErr};
ghost use Rattle.std.specs.Prelude.{is_ok, if◌then◌else◌, length, take, vec_capacity};
ghost use Rattle.std.specs.Io.KnownBytes.{Appends};
ghost use Rattle.outside_io.specs.Counts.{Rose, next_count, one_more};
ghost use Rattle.outside_io.specs.Putting.{AppendsPrefix};

use crate::sink::{PutFailed, Sink};
use crate::stop::{Stop, first_stop, out_count};
use model::Memory;
use std::alloc::Global;

/// A sink in memory. It discloses all that was written, and fails at the calls that it was set to fail at.
#[derive(Debug, Drop)]
pub struct MemorySink {
    bytes: Vec<u8>,
    room: usize,
    stops: Vec<Stop>,
    calls: u64,
    faults: u64,
    ghost reserved: { room ≤ vec_capacity bytes },
    ghost within: { length bytes.items ≤ room },
}

impl MemorySink {
    ghost use Rattle.outside_io.specs.MemorySink.{written_bytes, room_of, stops_of, put_count, fault_count};

    /// An empty sink with room for `room` bytes in all, whose memory is allocated here. The puts that `stops` numbers
    /// fail; of several stops of one put the first counts.
    ///
    /// # Errors
    ///
    /// `Memory` where `room` bytes can't be allocated.
    pub fn new(alloc: Global, room: u64, stops: Vec<Stop>) -> Result<MemorySink, Memory>
        ensures empty { IfOk result (λ sink. written_bytes sink ≡ []) }
        ensures room { IfOk result (λ sink. room_of sink ≡ room) }
        ensures stops { IfOk result (λ sink. stops_of sink ≡ stops.items) }
        ensures no_calls { IfOk result (λ sink. put_count sink ≡ 0) }
        ensures no_faults { IfOk result (λ sink. fault_count sink ≡ 0) }
    {
        let room = room as usize;
        Ok(MemorySink {
            bytes: Vec::with_capacity(alloc, room)?,
            room,
            stops,
            calls: 0,
            faults: 0,
        })
    }

    /// All that was written.
    pub fn bytes(&self) -> &[u8]
        ensures { result.now ≡ written_bytes self.now }
    {
        &self.bytes
    }
}

impl Sink for MemorySink {
    ghost use Rattle.outside_io.specs.MemorySink.{written_bytes, room_of, room_left, stops_of, put_count, fault_count};
    ghost use Rattle.outside_io.specs.MemorySink.{next_stop_bytes, out_count};

    ghost written = { λ sink. Some (written_bytes sink) };

    ghost puts = { λ sink. Some (put_count sink) };

    ghost faults = { fault_count };

    /// As the trait says. The put counts as a call; it succeeds exactly where no stop names the call and there is room
    /// for the whole piece. Else it raises the count of faults by one, and writes what the stop lets out, as far as
    /// there is room. It allocates no memory.
    fn put(&mut self, piece: &[u8]) -> Result<(), PutFailed>
        ensures keeps_count { fault_count self.old ≤ fault_count self.new }
        ensures keeps_room { room_of self.new ≡ room_of self.old }
        ensures keeps_stops { stops_of self.new ≡ stops_of self.old }

        ensures counted { Some (put_count self.new) ≡ one_more (Some (put_count self.old)) }
        ensures calls { put_count self.new ≡ next_count (put_count self.old) }
        ensures faults { fault_count self.new
            ≡ (if is_ok result then fault_count self.old else next_count (fault_count self.old)) }
        ensures writes { written_bytes self.new
            ≡ written_bytes self.old ++ take (out_count self.old (length piece.now)) piece.now }

        ensures works { IsOk result
            ↔ ((next_stop_bytes self.old ≡ None) × (length piece.now ≤ room_left self.old)) }
        ensures ok { OnOk result (Appends (Some (written_bytes self.old)) (Some (written_bytes self.new)) piece.now) }

        ensures failed { OnErr result (Rose (fault_count self.old) (fault_count self.new)) }
        ensures prefix { OnErr result
            (AppendsPrefix (Some (written_bytes self.old)) (Some (written_bytes self.new)) piece.now) }
    {
        self.calls = self.calls.saturating_add(1);
        let stop = first_stop(&self.stops, self.calls);
        let left = self.room - self.bytes.len();
        let count = out_count(stop, piece.len(), left);
        // There is room for these bytes, so they are never refused.
        let _ = self.bytes.extend_from_slice(&piece[..count]);
        if stop.is_none() && count == piece.len() {
            return Ok(());
        }
        self.faults = self.faults.saturating_add(1);
        Err(PutFailed)
    }
}
