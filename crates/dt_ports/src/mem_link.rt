//! A link in memory.

ghost use Rattle.std.specs.Prelude.{◌≡◌, ◌<◌, ◌++◌, [], Some, drop, length, IfOk};
ghost use Rattle.dt_ports.specs.Link.{counts_after_receive, counts_after_send};
ghost use Rattle.dt_ports.specs.MemLink.{bytes_received, bytes_taken, link_after_receive, link_after_send, new_link, received, send_step, with_front};

use crate::link::{Link, LinkCounts, RecvStep, SendStep};
use crate::room::Room;
use crate::steps::{Arrivals, Departures, Incoming, Outgoing};
use spec_model::Memory;
use std::alloc::Global;
use std::marker::Model;
use std::net::Net;
use std::rt::Clock;
use std::sync::Wait;
use std::thread::Threads;

/// A link in memory. It tells the bytes that it sent and got.
#[derive(Debug, Drop)]
pub struct MemLink {
    receives: Arrivals,
    sends: Departures,
    sent: Room,
    counts: LinkCounts,
}

impl Model for MemLink {
    ghost use Rattle.dt_ports.specs.MemLink.{LinkInMemory};

    ghost Value = { LinkInMemory };

    ghost view = { λ link. record {
      receives = link.receives.left;
      sends = link.sends;
      got = link.receives.got;
      sent = link.sent.bytes;
      room = link.sent.size;
      counts = link.counts;
    } };
}

impl MemLink {
    /// A link that does these steps, one at each receive and one at each send. Of a piece that does not fit the rest is the
    /// next step. Once the steps are used up, each receive is NotReady and each send takes the whole piece. It has room for
    /// so many bytes sent; a send that would pass that room fails, and uses its step up.
    pub fn new(
        alloc: Global,
        receives: Vec<Incoming>,
        sends: Vec<Outgoing>,
        room: usize,
    ) -> Result<MemLink, Memory>
        ensures { IfOk result (λ link. link ≡ new_link receives.items sends.items room) }
    {
        Ok(MemLink {
            receives: Arrivals::new(receives),
            sends: Departures::new(sends),
            sent: Room::new(alloc, room)?,
            counts: LinkCounts::new(),
        })
    }

    /// A link to a peer that takes all and says nothing: each send takes the whole piece, and each receive is NotReady.
    pub fn silent(alloc: Global, room: usize) -> Result<MemLink, Memory>
        ensures { IfOk result (λ link. link ≡ new_link [] [] room) }
    {
        MemLink::new(alloc, Vec::new(alloc), Vec::new(alloc), room)
    }

    /// The bytes sent.
    pub fn sent(&self) -> &[u8]
        ensures { result.now ≡ self.now.sent }
    {
        self.sent.as_slice()
    }

    /// How often it gave each answer that moved no bytes.
    pub fn counts(&self) -> LinkCounts
        ensures { result ≡ self.now.counts }
    {
        self.counts
    }

    /// Counts a receive that is NotReady, and does no step.
    pub(crate) fn hold_receive(&mut self) -> RecvStep
        ensures answer { result ≡ RecvStep.NotReady }
        ensures after { self.new ≡ record self.old { counts = counts_after_receive RecvStep.NotReady self.old.counts } }
    {
        let step = RecvStep::NotReady;
        self.counts.note_receive(step);
        step
    }

    /// Counts a send that is answered so, and does no step.
    pub(crate) fn hold_send(&mut self, step: SendStep)
        ensures { self.new ≡ record self.old { counts = counts_after_send step self.old.counts } }
    {
        self.counts.note_send(step);
    }

    /// Takes what the next step takes of a piece; the answer is yet to be counted.
    fn take_some(&mut self, piece: &[u8]) -> SendStep
        ensures answer { result ≡ send_step self.old piece.now }
        ensures after { self.new ≡ record self.old {
          sends = drop 1 self.old.sends;
          sent = self.old.sent ++ bytes_taken result piece.now;
        } }
    {
        match self.sends.next(piece.len()) {
            SendStep::Took(count) if count <= self.sent.left() => {
                self.sent.append(&piece[..count]);
                SendStep::Took(count)
            }
            SendStep::NotReady => SendStep::NotReady,
            SendStep::Took(_) | SendStep::Failed => SendStep::Failed,
        }
    }
}

impl Link for MemLink {
    ghost sent = { λ link. Some link.sent };

    ghost got = { λ link. Some link.got };

    ghost counts = { λ link. link.counts };

    fn try_send(&mut self, piece: &[u8]) -> SendStep
        requires { 0 < length piece.now }
        ensures answer { result ≡ send_step self.old piece.now }
        ensures after { self.new ≡ link_after_send self.old piece.now }
    {
        let step = self.take_some(piece);
        self.counts.note_send(step);
        step
    }

    fn try_recv(&mut self, room: &mut [u8]) -> RecvStep
        requires { 0 < length room.old }
        ensures answer { result ≡ received self.old.receives (length room.old) }
        ensures room { room.new ≡ with_front (bytes_received self.old.receives (length room.old)) room.old }
        ensures after { self.new ≡ link_after_receive self.old (length room.old) }
    {
        let step = self.receives.receive(room);
        self.counts.note_receive(step);
        step
    }

    fn wait<R: Threads + Wait + Net + Clock + Sync>(&mut self, _rt: &R)
        ensures { self.new ≡ self.old }
    {}
}
