// A sink in memory.
ghost use Rattle.std.specs.Prelude.{◌≡◌, ◌↔◌, ◌⊎◌, ◌<◌, ◌≤◌, ◌+◌, ◌-◌, ◌++◌, [], Some, min, IsErr, IfOk, OnOk, OnErr, vec_len, vec_capacity, take, length};
ghost use Rattle.bridge_io.specs.Tally.{FailsNext, no_counts, with_call, with_failing, with_fault};

use crate::tally::Tally;
use crate::{Sink, SinkFault};
use std::alloc::{AllocError, Global};

/// A sink that keeps what it takes: at most `most` bytes in a call, and `room` bytes in all. It fails where
/// it was told to by `fail_call`, and where no room is left, and nowhere else.
#[derive(Drop)]
pub struct MemorySink {
    bytes: Vec<u8>,
    most: usize,
    room: usize,
    tally: Tally,
    ghost takes_some: { 0 < most },
    ghost reserved: { vec_len bytes + room ≤ vec_capacity bytes },
}

impl MemorySink {
    ghost use Rattle.bridge_io.specs.MemorySink.{taken_of, most_of, room_of, counts_of};

    /// A sink that took nothing yet. Its memory is taken here, so that no write wants any.
    pub fn new(alloc: Global, most: usize, room: usize) -> Result<MemorySink, AllocError>
        requires { 0 < most }
        ensures taken { IfOk result (λ sink. taken_of sink ≡ []) }
        ensures most { IfOk result (λ sink. most_of sink ≡ most) }
        ensures room { IfOk result (λ sink. room_of sink ≡ room) }
        ensures counts { IfOk result (λ sink. counts_of sink ≡ no_counts) }
    {
        Ok(MemorySink {
            bytes: Vec::with_capacity(alloc, room)?,
            most,
            room,
            tally: Tally::new(alloc),
        })
    }

    /// The call of `write_next` of this number, counted from 1, is to fail. Where memory is refused the
    /// sink stays as it was.
    pub fn fail_call(&mut self, call: u64) -> Result<(), AllocError>
        ensures taken { taken_of self.new ≡ taken_of self.old }
        ensures most { most_of self.new ≡ most_of self.old }
        ensures room { room_of self.new ≡ room_of self.old }
        ensures ok { OnOk result (counts_of self.new ≡ with_failing (counts_of self.old) call) }
        ensures err { OnErr result (counts_of self.new ≡ counts_of self.old) }
    {
        self.tally.fail_call(call)
    }

    /// The bytes that it took.
    pub fn taken(&self) -> &[u8]
        ensures { result.now ≡ taken_of self.now }
    {
        &self.bytes
    }
}

impl Sink for MemorySink {
    ghost use Rattle.bridge_io.specs.MemorySink.{taken_of, most_of, room_of, counts_of};

    ghost taken = { λ s. Some (taken_of s) };

    ghost faults = { λ s. (counts_of s).faults };

    /// Takes as many bytes as the piece holds, as a call may take and as there is room for, whichever is
    /// least.
    fn write_next(&mut self, piece: &[u8]) -> Result<usize, SinkFault>
        requires { 0 < length piece.now }

        // When it fails, and what it then leaves.
        ensures fails { IsErr result ↔
            (FailsNext (counts_of self.old) ⊎ (room_of self.old ≡ 0)) }
        ensures same { OnErr result (taken_of self.new ≡ taken_of self.old) }
        ensures kept { OnErr result (room_of self.new ≡ room_of self.old) }
        ensures fault { OnErr result (counts_of self.new ≡ with_fault (with_call (counts_of self.old))) }
        ensures count { (counts_of self.old).faults ≤ (counts_of self.new).faults }

        // It takes all that `most` and `room` allow.
        ensures many { IfOk result (λ n.
            n ≡ min (min (length piece.now) (most_of self.old)) (room_of self.old)) }
        ensures some { IfOk result (λ n. 0 < n) }
        ensures taken { IfOk result (λ n. taken_of self.new ≡ taken_of self.old ++ take n piece.now) }
        ensures room { IfOk result (λ n. room_of self.new ≡ room_of self.old - n) }
        ensures counts { OnOk result (counts_of self.new ≡ with_call (counts_of self.old)) }
        ensures most { most_of self.new ≡ most_of self.old }
    {
        if self.tally.next_fails() || self.room == 0 {
            self.tally.fault();
            return Err(SinkFault);
        }
        let n = piece.len().min(self.most).min(self.room);
        self.bytes.extend_from_slice(&piece[..n]).unwrap();
        self.room -= n;
        Ok(n)
    }
}
