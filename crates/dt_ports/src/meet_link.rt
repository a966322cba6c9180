//! Two links in memory that must meet: each sends only once both waited at the same time.

ghost use Rattle.std.specs.Prelude.{◌≡◌, ◌<◌, ◌⊎◌, Some, length, IfOk};
ghost use Rattle.dt_ports.specs.HeldLink.{DoesSend, HoldsSend};
ghost use Rattle.dt_ports.specs.MemLink.{bytes_received, link_after_receive, received, with_front};

use crate::flag::{Flag, sleep_shortly};
use crate::gated_link::MOST_SLEEPS;
use crate::link::{Link, RecvStep, SendStep};
use crate::mem_link::MemLink;
use spec_model::Memory;
use std::alloc::Global;
use std::marker::Model;
use std::net::Net;
use std::rt::Clock;
use std::sync::Wait;
use std::thread::Threads;

/// A link in memory whose sends are NotReady until it met the other of its pair: until both were inside `wait` at one time.
/// Where it waited in vain its next send is Failed. So a program that does all its work on one thread fails.
#[derive(Drop)]
pub struct MeetLink {
    link: MemLink,
    waits: Flag,
    other_waits: Flag,
    met: Flag,
    waited_in_vain: bool,
}

impl Model for MeetLink {
    ghost use Rattle.dt_ports.specs.MemLink.{LinkInMemory};

    ghost Value = { LinkInMemory };

    ghost view = { λ meeting. meeting.link };
}

impl MeetLink {
    /// Two links, each with its own steps.
    pub fn pair(alloc: Global, one: MemLink, other: MemLink) -> Result<(MeetLink, MeetLink), Memory>
        ensures { IfOk result (λ pair. (pair.0 ≡ one) × (pair.1 ≡ other)) }
    {
        let one_waits = Flag::new(alloc)?;
        let other_waits = Flag::new(alloc)?;
        let met = Flag::new(alloc)?;
        let first = MeetLink {
            link: one,
            waits: one_waits.share()?,
            other_waits: other_waits.share()?,
            met: met.share()?,
            waited_in_vain: false,
        };
        let second = MeetLink {
            link: other,
            waits: other_waits,
            other_waits: one_waits,
            met,
            waited_in_vain: false,
        };
        Ok((first, second))
    }

    /// The bytes sent.
    pub fn sent(&self) -> &[u8]
        ensures { result.now ≡ self.now.sent }
    {
        self.link.sent()
    }

    /// Whether the two met, which is then known to both.
    fn meets(&self) -> bool {
        if self.other_waits.is_raised() {
            self.met.raise();
        }
        self.met.is_raised()
    }

    /// Whether the two meet within so many short sleeps.
    fn meets_within(&self, clock: &impl Clock, sleeps: u32) -> bool {
        for _ in 0..sleeps {
            if self.meets() {
                return true;
            }
            sleep_shortly(clock);
        }
        false
    }

    /// The answer to a send before the two met.
    fn hold(&mut self) -> SendStep
        ensures { HoldsSend self.old self.new result SendStep.NotReady
            ⊎ HoldsSend self.old self.new result SendStep.Failed }
    {
        let step = if self.waited_in_vain {
            SendStep::Failed
        } else {
            SendStep::NotReady
        };
        self.waited_in_vain = false;
        self.link.hold_send(step);
        step
    }
}

impl Link for MeetLink {
    ghost sent = { λ link. Some link.sent };

    ghost got = { λ link. Some link.got };

    ghost counts = { λ link. link.counts };

    fn try_send(&mut self, piece: &[u8]) -> SendStep
        requires { 0 < length piece.now }
        ensures { HoldsSend self.old self.new result SendStep.NotReady
            ⊎ (HoldsSend self.old self.new result SendStep.Failed
            ⊎ DoesSend self.old self.new piece.now result) }
    {
        if self.met.is_raised() {
            self.link.try_send(piece)
        } else {
            self.hold()
        }
    }

    fn try_recv(&mut self, room: &mut [u8]) -> RecvStep
        requires { 0 < length room.old }
        ensures answer { result ≡ received self.old.receives (length room.old) }
        ensures room { room.new ≡ with_front (bytes_received self.old.receives (length room.old)) room.old }
        ensures after { self.new ≡ link_after_receive self.old (length room.old) }
    {
        self.link.try_recv(room)
    }

    /// Sleeps until the two met, for `MOST_SLEEPS` short sleeps at most.
    fn wait<R: Threads + Wait + Net + Clock + Sync>(&mut self, rt: &R)
        ensures { self.new ≡ self.old }
    {
        self.waits.raise();
        self.waited_in_vain = !self.meets_within(rt, MOST_SLEEPS);
        self.waits.lower();
    }
}
