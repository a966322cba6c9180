//! An output in memory.

ghost use Rattle.std.specs.Prelude.{◌≡◌, ◌<◌, [], Some, length, IfOk};
ghost use Rattle.dt_ports.specs.MemSink.{sink_after, written};

use crate::count::{Count, Failed};
use crate::room::Room;
use crate::sink::Sink;
use spec_model::Memory;
use std::alloc::Global;
use std::marker::Model;

/// An output in memory. It tells the bytes that it took.
#[derive(Debug, Drop)]
pub struct MemSink {
    taken: Room,
    faults: Count,
}

impl Model for MemSink {
    ghost use Rattle.dt_ports.specs.MemSink.{SinkInMemory};

    ghost Value = { SinkInMemory };

    ghost view = { λ sink. record { taken = sink.taken.bytes; room = sink.taken.size; faults = sink.faults } };
}

impl MemSink {
    /// An output that took nothing yet, with room for so many bytes. A write takes as many first bytes of its piece as
    /// there is room for, and once the room is full each write fails.
    pub fn new(alloc: Global, room: usize) -> Result<MemSink, Memory>
        ensures { IfOk result (λ sink. sink ≡ record { taken = []; room = room; faults = 0 }) }
    {
        Ok(MemSink {
            taken: Room::new(alloc, room)?,
            faults: Count::new(),
        })
    }

    /// The bytes that it took.
    pub fn taken(&self) -> &[u8]
        ensures { result.now ≡ self.now.taken }
    {
        self.taken.as_slice()
    }

    /// How many writes failed.
    pub fn faults(&self) -> u64
        ensures { result ≡ self.now.faults }
    {
        self.faults.get()
    }
}

impl Sink for MemSink {
    ghost taken = { λ sink. Some sink.taken };

    ghost faults = { λ sink. sink.faults };

    fn write(&mut self, piece: &[u8]) -> Result<usize, Failed>
        requires { 0 < length piece.now }
        ensures answer { result ≡ written self.old piece.now }
        ensures after { self.new ≡ sink_after self.old piece.now }
    {
        let left = self.taken.left();
        if left == 0 {
            self.faults.raise();
            return Err(Failed);
        }
        let count = left.min(piece.len());
        self.taken.append(&piece[..count]);
        Ok(count)
    }
}
