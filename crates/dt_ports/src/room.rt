//! Bytes that are kept in a room taken beforehand.

ghost use Rattle.std.specs.Prelude.{◌≡◌, ◌+◌, ◌≤◌, ◌-◌, ◌++◌, [], length, IfOk};

use spec_model::Memory;
use std::alloc::Global;
use std::marker::Model;

/// Bytes, with the room for as many as there may ever be.
#[derive(Debug, Drop)]
pub(crate) struct Room {
    bytes: Vec<u8>,
    size: usize,
}

impl Model for Room {
    ghost use Rattle.std.specs.Prelude.{◌≤◌, length, vec_capacity};
    ghost use Rattle.dt_ports.specs.Room.{BytesInRoom};

    ghost Value = { BytesInRoom };

    ghost view = { λ room. record { bytes = room.bytes.items; size = room.size } };

    ghost invariant = { λ room. (length room.bytes.items ≤ room.size) × (room.size ≤ vec_capacity room.bytes) };
}

impl Room {
    /// Takes the room for so many bytes.
    pub(crate) fn new(alloc: Global, size: usize) -> Result<Room, Memory>
        ensures { IfOk result (λ room. room ≡ record { bytes = []; size = size }) }
    {
        Ok(Room {
            bytes: Vec::with_capacity(alloc, size)?,
            size,
        })
    }

    /// How many bytes there is room for.
    pub(crate) fn left(&self) -> usize
        ensures left { result ≡ self.now.size - length self.now.bytes }
        ensures within { length self.now.bytes ≤ self.now.size }
    {
        self.size - self.bytes.len()
    }

    /// Puts bytes at the end.
    pub(crate) fn append(&mut self, piece: &[u8])
        requires { length self.old.bytes + length piece.now ≤ self.old.size }
        ensures { self.new ≡ record self.old { bytes = self.old.bytes ++ piece.now } }
    {
        self.bytes.extend_from_slice(piece).unwrap();
    }

    /// The bytes.
    pub(crate) fn as_slice(&self) -> &[u8]
        ensures { result.now ≡ self.now.bytes }
    {
        self.bytes.as_slice()
    }
}
