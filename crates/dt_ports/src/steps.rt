//! What a link in memory does, call by call.

ghost use Rattle.std.specs.Prelude.{◌≡◌, [], drop, length, min, take, IfOk};
ghost use Rattle.dt_ports.specs.MemLink.{arrival_after, bytes_received, received, received_bytes, wanted, with_front};

use crate::link::{RecvStep, SendStep};
use spec_model::Memory;
use spec_model::list::Bytes;
use std::alloc::Global;
use std::marker::Model;

/// What a link in memory does at a receive. Definition: own.
#[derive(Debug, Drop)]
pub enum Incoming {
    /// It gives these bytes: as many as fit, and the rest at the receives that follow. No bytes are not ready.
    Piece(Bytes),
    /// It has nothing now.
    NotReady,
    /// It fails.
    Failed,
    /// It ends, at this receive and at every later one.
    End,
}

impl Incoming {
    /// The step that gives a copy of these bytes.
    pub fn piece(alloc: Global, bytes: &[u8]) -> Result<Incoming, Memory>
        ensures { IfOk result (λ step. step ≡ Incoming.Piece bytes.now) }
    {
        Ok(Incoming::Piece(Bytes::from_slice(alloc, bytes)?))
    }
}

/// What a link in memory does at a send. Definition: own.
#[derive(Clone, Copy, Debug, PartialEq, Eq)]
pub enum Outgoing {
    /// It takes so many bytes at most. None is not ready.
    AtMost(usize),
    /// It takes nothing now.
    NotReady,
    /// It fails.
    Failed,
}

/// The steps of receives, of which the first `passed` are done, and of the next one the first `taken` bytes.
#[derive(Debug, Drop)]
pub(crate) struct Arrivals {
    steps: Vec<Incoming>,
    passed: usize,
    taken: usize,
}

impl Model for Arrivals {
    ghost use Rattle.dt_ports.specs.MemLink.{Arrival};

    ghost Value = { Arrival };

    ghost use Rattle.dt_ports.specs.Arrivals.{arrival_at, IsWithinStep};

    ghost view = { λ arrivals. arrival_at arrivals.steps.items arrivals.passed arrivals.taken };

    ghost invariant = { λ arrivals. IsWithinStep arrivals.steps.items arrivals.passed arrivals.taken };
}

/// Puts the first bytes of a piece at the front of a room, as many as fit, and says how many.
fn put_front(piece: &[u8], room: &mut [u8]) -> usize
    ensures count { result ≡ min (length piece.now) (length room.old) }
    ensures room { room.new ≡ with_front (take (length room.old) piece.now) room.old }
{
    let count = piece.len().min(room.len());
    room[..count].copy_from_slice(&piece[..count]);
    count
}

/// The answer to a receive that put so many bytes into the room.
fn got(count: usize) -> RecvStep
    ensures { result ≡ received_bytes count }
{
    if count == 0 {
        RecvStep::NotReady
    } else {
        RecvStep::Got(count)
    }
}

impl Arrivals {
    /// Steps of which none is done.
    pub(crate) fn new(steps: Vec<Incoming>) -> Arrivals
        ensures { result ≡ record { left = steps.items; got = [] } }
    {
        Arrivals {
            steps,
            passed: 0,
            taken: 0,
        }
    }

    /// Does the next step of a receive into a room.
    pub(crate) fn receive(&mut self, room: &mut [u8]) -> RecvStep
        ensures answer { result ≡ received self.old.left (length room.old) }
        ensures room { room.new ≡ with_front (bytes_received self.old.left (length room.old)) room.old }
        ensures after { self.new ≡ arrival_after self.old (length room.old) }
    {
        match self.steps.get(self.passed) {
            None => RecvStep::NotReady,
            Some(Incoming::End) => RecvStep::End,
            Some(Incoming::NotReady) => {
                self.passed += 1;
                self.taken = 0;
                RecvStep::NotReady
            }
            Some(Incoming::Failed) => {
                self.passed += 1;
                self.taken = 0;
                RecvStep::Failed
            }
            Some(Incoming::Piece(piece)) => {
                let left = &piece.as_slice()[self.taken..];
                let count = put_front(left, room);
                if count < left.len() {
                    self.taken += count;
                    return got(count);
                }
                self.passed += 1;
                self.taken = 0;
                got(count)
            }
        }
    }
}

/// The steps of sends, of which the first `passed` are done.
#[derive(Debug, Drop)]
pub(crate) struct Departures {
    steps: Vec<Outgoing>,
    passed: usize,
}

impl Model for Departures {
    ghost use Rattle.std.specs.Prelude.{List, drop};
    ghost use Rattle.dt_ports.specs.declared.steps.Outgoing.{Outgoing};

    ghost Value = { List Outgoing };

    ghost view = { λ departures. drop departures.passed departures.steps.items };
}

impl Departures {
    /// Steps of which none is done.
    pub(crate) fn new(steps: Vec<Outgoing>) -> Departures
        ensures { result ≡ steps.items }
    {
        Departures { steps, passed: 0 }
    }

    /// What the next step makes of a piece of so many bytes, were there room for it.
    pub(crate) fn next(&mut self, size: usize) -> SendStep
        ensures answer { result ≡ wanted self.old size }
        ensures after { self.new ≡ drop 1 self.old }
    {
        let Some(step) = self.steps.get(self.passed).copied() else {
            return SendStep::Took(size);
        };
        self.passed += 1;
        match step {
            Outgoing::AtMost(most) => {
                let count = most.min(size);
                if count == 0 {
                    SendStep::NotReady
                } else {
                    SendStep::Took(count)
                }
            }
            Outgoing::NotReady => SendStep::NotReady,
            Outgoing::Failed => SendStep::Failed,
        }
    }
}
