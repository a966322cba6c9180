//! The bytes that came behind the last message.

ghost use Rattle.std.specs.Prelude.{◌≡◌, ◌<◌, ◌≤◌, ◌++◌, [], drop, length, IfOk, OnErr};
ghost use Rattle.conn_worker.specs.Parts.{bytes_got};
ghost use Rattle.conn_worker.specs.Seen.{shows};
ghost use Rattle.dt_ports.specs.Link.{counts_after_receive, got_after, GetsSome};

use dt_ports::link::{Link, RecvStep};
use spec_model::Memory;
use std::alloc::Global;
use std::marker::Model;

/// Bytes, of which the first `passed` are done with. Those are let go once in a turn, so that bytes are moved in linear time.
#[derive(Debug, Drop)]
pub(crate) struct AtHand {
    bytes: Vec<u8>,
    passed: usize,
}

impl Model for AtHand {
    ghost use Rattle.std.specs.Prelude.{◌≤◌, ℕ, List, drop, length};

    ghost Value = { List ℕ };

    ghost view = { λ at_hand. drop at_hand.passed at_hand.bytes.items };

    ghost invariant = { λ at_hand. at_hand.passed ≤ length at_hand.bytes.items };
}

impl AtHand {
    /// No bytes, with room for so many.
    pub(crate) fn new(alloc: Global, room: usize) -> Result<AtHand, Memory>
        ensures { IfOk result (λ at_hand. at_hand ≡ []) }
    {
        Ok(AtHand {
            bytes: Vec::with_capacity(alloc, room)?,
            passed: 0,
        })
    }

    /// The bytes.
    pub(crate) fn as_slice(&self) -> &[u8]
        ensures { result.now ≡ self.now }
    {
        &self.bytes[self.passed..]
    }

    /// Is done with so many bytes.
    pub(crate) fn pass(&mut self, count: usize)
        requires { count ≤ length self.old }
        ensures { self.new ≡ drop count self.old }
    {
        self.passed += count;
    }

    /// Lets go of what it is done with.
    pub(crate) fn let_go(&mut self)
        ensures { self.new ≡ self.old }
    {
        if self.passed > 0 {
            drop(self.bytes.drain(..self.passed));
            self.passed = 0;
        }
    }

    /// Receives what is there, into a room first. The memory for all that may come is taken before.
    pub(crate) fn receive<L: Link>(
        &mut self,
        link: &mut L,
        room: &mut [u8],
    ) -> Result<RecvStep, Memory>
        requires { 0 < length room.old }
        ensures step { IfOk result (λ step. GetsSome (length room.old) step) }
        ensures came { IfOk result (λ step. self.new ≡ self.old ++ bytes_got room.new step) }
        ensures link { IfOk result (λ step. shows (L.sent link.new) (L.got link.new) (L.counts link.new)
            ≡ shows (L.sent link.old) (got_after room.new step (L.got link.old)) (counts_after_receive step (L.counts link.old))) }
        ensures err { OnErr result (self.new ≡ self.old) }
        ensures err_link { OnErr result (link.new ≡ link.old) }
    {
        self.bytes.reserve(room.len())?;
        let step = link.try_recv(room);
        if let RecvStep::Got(count) = step {
            self.bytes.extend_from_slice(&room[..count]).unwrap();
        }
        Ok(step)
    }
}
