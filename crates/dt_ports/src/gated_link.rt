//! Two links in memory, each of which gives its bytes only once the other was sent to.

ghost use Rattle.std.specs.Prelude.{◌≡◌, ◌<◌, ◌⊎◌, Some, length, IfOk};
ghost use Rattle.dt_ports.specs.HeldLink.{DoesReceive, HoldsReceive};
ghost use Rattle.dt_ports.specs.MemLink.{link_after_send, send_step};

use crate::flag::Flag;
use crate::link::{Link, RecvStep, SendStep};
use crate::mem_link::MemLink;
use spec_model::Memory;
use std::alloc::Global;
use std::marker::Model;
use std::net::Net;
use std::rt::Clock;
use std::sync::Wait;
use std::thread::Threads;

/// How many short sleeps a link takes in all, while the other is not sent to.
pub const MOST_SLEEPS: u32 = 2_000;

/// A link in memory whose receives are NotReady until the other of its pair was sent to. So a program that drives one
/// connection to its end before the next gets nothing on the first.
#[derive(Drop)]
pub struct GatedLink {
    link: MemLink,
    sent_to: Flag,
    other_sent_to: Flag,
    sleeps: u32,
}

impl Model for GatedLink {
    ghost use Rattle.dt_ports.specs.MemLink.{LinkInMemory};

    ghost Value = { LinkInMemory };

    ghost view = { λ gated. gated.link };
}

impl GatedLink {
    /// Two links, each with its own steps.
    pub fn pair(
        alloc: Global,
        one: MemLink,
        other: MemLink,
    ) -> Result<(GatedLink, GatedLink), Memory>
        ensures { IfOk result (λ pair. (pair.0 ≡ one) × (pair.1 ≡ other)) }
    {
        let one_sent_to = Flag::new(alloc)?;
        let other_sent_to = Flag::new(alloc)?;
        let first = GatedLink {
            link: one,
            sent_to: one_sent_to.share()?,
            other_sent_to: other_sent_to.share()?,
            sleeps: 0,
        };
        let second = GatedLink {
            link: other,
            sent_to: other_sent_to,
            other_sent_to: one_sent_to,
            sleeps: 0,
        };
        Ok((first, second))
    }

    /// The bytes sent.
    pub fn sent(&self) -> &[u8]
        ensures { result.now ≡ self.now.sent }
    {
        self.link.sent()
    }
}

impl Link for GatedLink {
    ghost sent = { λ link. Some link.sent };

    ghost got = { λ link. Some link.got };

    ghost counts = { λ link. link.counts };

    fn try_send(&mut self, piece: &[u8]) -> SendStep
        requires { 0 < length piece.now }
        ensures answer { result ≡ send_step self.old piece.now }
        ensures after { self.new ≡ link_after_send self.old piece.now }
    {
        let step = self.link.try_send(piece);
        if let SendStep::Took(_) = step {
            self.sent_to.raise();
        }
        step
    }

    fn try_recv(&mut self, room: &mut [u8]) -> RecvStep
        requires { 0 < length room.old }
        ensures { HoldsReceive self.old self.new room.old room.new result RecvStep.NotReady
            ⊎ DoesReceive self.old self.new room.old room.new result }
    {
        if self.other_sent_to.is_raised() {
            self.link.try_recv(room)
        } else {
            self.link.hold_receive()
        }
    }

    /// Sleeps until the other was sent to, or `MOST_SLEEPS` short sleeps were taken in all.
    fn wait<R: Threads + Wait + Net + Clock + Sync>(&mut self, rt: &R)
        ensures { self.new ≡ self.old }
    {
        let most = MOST_SLEEPS.saturating_sub(self.sleeps);
        self.sleeps = MOST_SLEEPS - most + self.other_sent_to.sleep_until_raised(rt, most);
    }
}
