//! Links: streams of bytes, both ways, that do not wait.

ghost use Rattle.std.specs.Prelude.{◌≡◌, ◌<◌, ℕ, List, Option, length};
ghost use Rattle.dt_ports.specs.declared.link.LinkCounts.{LinkCounts};
ghost use Rattle.dt_ports.specs.Link.{counts_after_receive, counts_after_send, got_after, no_answers, sent_after, GetsSome, TakesSome};

use crate::count::Count;
use std::net::Net;
use std::rt::Clock;
use std::sync::Wait;
use std::thread::Threads;

/// What a link answers to a send.
#[derive(Clone, Copy, Debug, PartialEq, Eq)]
pub enum SendStep {
    /// It took so many of the first bytes: one at least.
    Took(usize),
    /// It takes nothing now.
    NotReady,
    /// The send failed.
    Failed,
}

/// What a link answers to a receive.
#[derive(Clone, Copy, Debug, PartialEq, Eq)]
pub enum RecvStep {
    /// So many bytes came: one at least.
    Got(usize),
    /// Nothing is there now.
    NotReady,
    /// The peer will send nothing more.
    End,
    /// The receive failed.
    Failed,
}

/// How often a link gave each answer that moved no bytes.
#[derive(Clone, Copy, Debug, PartialEq, Eq)]
pub struct LinkCounts {
    /// Sends and receives answered Failed.
    pub faults: Count,
    /// Sends answered NotReady.
    pub sends_not_ready: Count,
    /// Receives answered NotReady.
    pub receives_not_ready: Count,
    /// Receives answered End.
    pub ends: Count,
}

impl LinkCounts {
    /// The counts of a link that gave no answer yet.
    pub fn new() -> LinkCounts
        ensures { result ≡ no_answers }
    {
        LinkCounts {
            faults: Count::new(),
            sends_not_ready: Count::new(),
            receives_not_ready: Count::new(),
            ends: Count::new(),
        }
    }

    /// Counts the answer to a send.
    pub fn note_send(&mut self, step: SendStep)
        ensures { self.new ≡ counts_after_send step self.old }
    {
        match step {
            SendStep::Took(_) => {}
            SendStep::NotReady => self.sends_not_ready.raise(),
            SendStep::Failed => self.faults.raise(),
        }
    }

    /// Counts the answer to a receive.
    pub fn note_receive(&mut self, step: RecvStep)
        ensures { self.new ≡ counts_after_receive step self.old }
    {
        match step {
            RecvStep::Got(_) => {}
            RecvStep::NotReady => self.receives_not_ready.raise(),
            RecvStep::End => self.ends.raise(),
            RecvStep::Failed => self.faults.raise(),
        }
    }
}

/// A connection to a server, as an ordered stream of bytes each way (RFC 9293). No call but `wait` waits.
///
/// An adapter over a socket keeps a `LinkCounts`, notes each of its answers there, and tells nothing: its `sent` and
/// `got` are `None`.
pub trait Link: Drop {
    /// The bytes sent so far, where the link tells them.
    ghost sent: { Self → Option (List ℕ) };

    /// The bytes got so far, where the link tells them.
    ghost got: { Self → Option (List ℕ) };

    /// How often it gave each answer that moved no bytes.
    ghost counts: { Self → LinkCounts };

    /// Hands the first bytes of a piece over, as many as the link takes now. The piece is not empty.
    fn try_send(&mut self, piece: &[u8]) -> SendStep
        requires { 0 < length piece.now }
        ensures within { TakesSome (length piece.now) result }

        // What is sent grows by exactly the bytes taken.
        ensures grows { sent self.new ≡ sent_after piece.now result (sent self.old) }
        ensures kept { got self.new ≡ got self.old }
        ensures counted { counts self.new ≡ counts_after_send result (counts self.old) };

    /// Puts the bytes that are there at the front of a room, as many as fit. The room is not empty, and what is behind
    /// those bytes in it is left open.
    fn try_recv(&mut self, room: &mut [u8]) -> RecvStep
        requires { 0 < length room.old }
        ensures within { GetsSome (length room.old) result }

        // What is got grows by exactly the bytes that came.
        ensures grows { got self.new ≡ got_after room.new result (got self.old) }
        ensures kept { sent self.new ≡ sent self.old }
        ensures counted { counts self.new ≡ counts_after_receive result (counts self.old) };

    /// Waits a while.
    fn wait<R: Threads + Wait + Net + Clock + Sync>(&mut self, rt: &R)
        ensures sent { sent self.new ≡ sent self.old }
        ensures got { got self.new ≡ got self.old }
        ensures counts { counts self.new ≡ counts self.old };
}
