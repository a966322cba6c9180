//! Books: lists that keep the events of an exchange while it goes on.

ghost use Rattle.std.specs.Prelude.{◌≡◌, ℕ, List};
ghost use Rattle.dt_ports.specs.declared.book.BookCounts.{BookCounts};
ghost use Rattle.dt_ports.specs.Book.{counts_after_append, counts_after_verdict, events_after, no_appends, HandsBack};
ghost use Rattle.spec_model.specs.declared.event.ClientEvent.{ClientEvent};
ghost use Rattle.spec_model.specs.declared.event.Shape.{Shape};
ghost use Rattle.spec_model.specs.World.{IsOfShape};

use crate::count::Count;
use spec_model::event::{ClientEvent, Shape, Verdict};
use std::alloc::Global;
use std::net::Net;
use std::rt::Clock;
use std::sync::Wait;
use std::thread::Threads;

/// What a book answers to an event.
#[derive(Debug, Drop)]
pub enum Appended {
    /// The event was kept at this place, from 1. The verdict is that of the first `fed` events that the book holds.
    Kept {
        place: usize,
        verdict: Verdict,
        fed: usize,
    },
    /// There is no room for one more event, and it is handed back.
    Full(ClientEvent),
}

/// How often a book gave each answer that ends the driving of a connection.
#[derive(Clone, Copy, Debug, PartialEq, Eq)]
pub struct BookCounts {
    /// Answers Full.
    pub fulls: Count,
    /// Answers that showed Reject or Inconclusive.
    pub stops: Count,
}

impl BookCounts {
    /// The counts of a book that gave no answer yet.
    pub fn new() -> BookCounts
        ensures { result ≡ no_appends }
    {
        BookCounts {
            fulls: Count::new(),
            stops: Count::new(),
        }
    }

    /// Counts an answer that shows this verdict.
    fn note_verdict(&mut self, verdict: Verdict)
        ensures { self.new ≡ counts_after_verdict verdict self.old }
    {
        match verdict {
            Verdict::Open => {}
            Verdict::Reject(_) | Verdict::Inconclusive(_) => self.stops.raise(),
        }
    }

    /// Counts an answer.
    pub fn note(&mut self, answer: &Appended)
        ensures { self.new ≡ counts_after_append answer.now self.old }
    {
        match answer {
            Appended::Kept { verdict, .. } => self.note_verdict(*verdict),
            Appended::Full(_) => self.fulls.raise(),
        }
    }
}

/// A holder's hand on a list that keeps the events of an exchange, in which others may keep events too.
///
/// The events of a book are those that its holder appended, each once, in order. Each Full raises the one count by one, and
/// each answer that shows Reject or Inconclusive the other; nothing else changes them, so they never fall.
pub trait Book {
    /// The shape of the events.
    ghost shape: { Self → Shape };

    /// The name of the holder.
    ghost name: { Self → List ℕ };

    /// The events that the holder appended.
    ghost events: { Self → List ClientEvent };

    /// How often it gave each answer that ends the driving of a connection.
    ghost counts: { Self → BookCounts };

    /// Keeps an event at the end of the list, or hands it back where there is no room. It may wait for the others.
    fn append<R: Threads + Wait + Net + Clock + Sync>(
        &mut self,
        rt: &R,
        alloc: Global,
        event: ClientEvent,
    ) -> Appended
        requires { IsOfShape (shape self.old) event }
        ensures shape { shape self.new ≡ shape self.old }
        ensures name { name self.new ≡ name self.old }
        ensures grows { events self.new ≡ events_after event result (events self.old) }
        ensures handed_back { HandsBack event result }
        ensures counted { counts self.new ≡ counts_after_append result (counts self.old) };
}
