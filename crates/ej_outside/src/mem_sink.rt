//! A sink in memory.

ghost use Rattle.std.specs.Prelude.{◌≡◌, IfOk};

use crate::calls::{Calls, one_more};
use crate::{Failed, Sink};
use std::alloc::{AllocError, Global};
use std::marker::Model;

/// Bytes that are taken within a room that is set aside for them.
///
/// Writes are numbered from 0. A write whose number is listed fails and is counted. The number of the next
/// write and the count of faults stay at 2^64-1 once they are there.
#[derive(Debug, Drop)]
pub struct MemSink {
    taken: Vec<u8>,
    room: usize,
    calls: Calls,
    faults: u64,
}

impl Model for MemSink {
    ghost use Rattle.std.specs.Prelude.{◌+◌, ◌≤◌, vec_len, vec_capacity};
    ghost use Rattle.ej_outside.specs.MemSink.{MemSinkState, mem_sink_code};

    ghost Value = { MemSinkState };

    ghost coded = { mem_sink_code };

    ghost view = { λ s. record { taken = s.taken.items; room = s.room; fails = s.calls.fails.items; next = s.calls.next; faults = s.faults } };

    ghost invariant = { λ s. vec_len s.taken + s.room ≤ vec_capacity s.taken };
}

impl MemSink {
    ghost use Rattle.ej_outside.specs.MemSink.{fresh};

    /// A sink with `room` bytes of room, and the numbers of the writes that are to fail.
    ///
    /// All the memory that writes need is taken here; the error says that it was wanting.
    pub fn new(alloc: Global, room: usize, fails: Vec<u64>) -> Result<MemSink, AllocError>
        ensures { IfOk result (λ sink. sink ≡ fresh room fails.items) }
    {
        let taken = Vec::with_capacity(alloc, room)?;
        Ok(MemSink {
            taken,
            room,
            calls: Calls { fails, next: 0 },
            faults: 0,
        })
    }

    /// The bytes that were taken, in order.
    pub fn taken(&self) -> &[u8]
        ensures { result.now ≡ self.now.taken }
    {
        &self.taken
    }
}

impl Sink for MemSink {
    ghost use Rattle.ej_outside.specs.Sink.{Writes};
    ghost use Rattle.ej_outside.specs.MemSink.{sink_state, MemWrites};

    ghost state = { sink_state };

    /// Takes the whole piece, uses as many bytes of the room, and answers the length of the piece.
    ///
    /// `Failed` comes exactly where this write is listed or the piece is longer than the room: then nothing is
    /// taken, no room is used, and the count of faults rises.
    fn write(&mut self, piece: &[u8]) -> Result<usize, Failed>
        ensures exact { MemWrites self.old piece.now result self.new }
        ensures owed { Writes (sink_state self.old) piece.now result (sink_state self.new) }
    {
        if self.calls.fails_next() {
            self.faults = one_more(self.faults);
            return Err(Failed);
        }
        if self.room < piece.len() {
            self.faults = one_more(self.faults);
            return Err(Failed);
        }
        if self.taken.extend_from_slice(piece).is_err() {
            unreachable!();
        }
        self.room -= piece.len();
        Ok(piece.len())
    }
}
