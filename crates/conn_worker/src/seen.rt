//! What a part of a turn saw.

ghost use Rattle.std.specs.Prelude.{◌≡◌, true};
ghost use Rattle.conn_worker.specs.Seen.{both_seen, end_seen, is_quiet, nothing_seen, received_seen, stops};

use dt_ports::end::End;
use dt_ports::link::RecvStep;
use spec_model::event::Verdict;

/// What a part of a turn saw. Definition: own.
#[derive(Clone, Copy, Debug, PartialEq, Eq)]
pub(crate) struct Seen {
    /// A call on the link failed.
    pub(crate) failed: bool,
    /// The book had no room for an event.
    pub(crate) full: bool,
    /// It was kept that what came begins no message.
    pub(crate) garbled: bool,
    /// The link ended.
    pub(crate) ended: bool,
    /// The book showed that the exchange is rejected, or can be judged no further.
    pub(crate) stopped: bool,
    /// Bytes were handed over, bytes came, or an event was kept.
    pub(crate) moved: bool,
}

impl Seen {
    /// Nothing of it.
    pub(crate) fn nothing() -> Seen
        ensures { result ≡ nothing_seen }
    {
        Seen {
            failed: false,
            full: false,
            garbled: false,
            ended: false,
            stopped: false,
            moved: false,
        }
    }

    /// Bytes moved.
    pub(crate) fn moved() -> Seen
        ensures { result ≡ record nothing_seen { moved = true } }
    {
        Seen {
            moved: true,
            ..Seen::nothing()
        }
    }

    /// A call on the link failed.
    pub(crate) fn failed() -> Seen
        ensures { result ≡ record nothing_seen { failed = true } }
    {
        Seen {
            failed: true,
            ..Seen::nothing()
        }
    }

    /// A receive was answered so.
    pub(crate) fn received(step: RecvStep) -> Seen
        ensures { result ≡ received_seen step }
    {
        match step {
            RecvStep::Got(_) => Seen::moved(),
            RecvStep::NotReady => Seen::nothing(),
            RecvStep::End => Seen {
                ended: true,
                ..Seen::nothing()
            },
            RecvStep::Failed => Seen::failed(),
        }
    }

    /// The book had no room.
    pub(crate) fn full() -> Seen
        ensures { result ≡ record nothing_seen { full = true } }
    {
        Seen {
            full: true,
            ..Seen::nothing()
        }
    }

    /// An event was kept, and the book showed this verdict.
    pub(crate) fn kept(verdict: Verdict) -> Seen
        ensures { result ≡ record nothing_seen { moved = true; stopped = stops verdict } }
    {
        let stopped = match verdict {
            Verdict::Open => false,
            Verdict::Reject(_) | Verdict::Inconclusive(_) => true,
        };
        Seen {
            moved: true,
            stopped,
            ..Seen::nothing()
        }
    }

    /// It was kept that what came begins no message, and the book showed this verdict.
    pub(crate) fn garbled(verdict: Verdict) -> Seen
        ensures { result ≡ record nothing_seen { garbled = true; moved = true; stopped = stops verdict } }
    {
        Seen {
            garbled: true,
            ..Seen::kept(verdict)
        }
    }

    /// What this part and a later one saw.
    pub(crate) fn and(self, later: Seen) -> Seen
        ensures { result ≡ both_seen self later }
    {
        Seen {
            failed: self.failed || later.failed,
            full: self.full || later.full,
            garbled: self.garbled || later.garbled,
            ended: self.ended || later.ended,
            stopped: self.stopped || later.stopped,
            moved: self.moved || later.moved,
        }
    }

    /// The end that is due, where one is: the first of Failed, Full, Garbled, Ended and Stopped.
    pub(crate) fn end(self) -> Option<End>
        ensures { result ≡ end_seen self }
    {
        if self.failed {
            Some(End::Failed)
        } else if self.full {
            Some(End::Full)
        } else if self.garbled {
            Some(End::Garbled)
        } else if self.ended {
            Some(End::Ended)
        } else if self.stopped {
            Some(End::Stopped)
        } else {
            None
        }
    }

    /// Whether it is nothing at all.
    pub(crate) fn is_quiet(self) -> bool
        ensures { result ≡ is_quiet self }
    {
        self.end().is_none() && !self.moved
    }
}
