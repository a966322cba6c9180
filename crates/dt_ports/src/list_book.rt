//! A book in memory.

ghost use Rattle.std.specs.Prelude.{◌≡◌, ◌<◌, ◌+◌, ◌++◌, ◌∷◌, [], length, IfOk};
ghost use Rattle.dt_ports.specs.Book.{no_appends};
ghost use Rattle.dt_ports.specs.ListBook.{book_after, book_answer};
ghost use Rattle.spec_model.specs.World.{IsOfShape};

use crate::book::{Appended, Book, BookCounts};
use spec_model::Memory;
use spec_model::event::{ClientEvent, Shape, Verdict};
use std::alloc::Global;
use std::marker::Model;
use std::net::Net;
use std::rt::Clock;
use std::sync::Wait;
use std::thread::Threads;

/// A book in memory, whose holder is the only one. Each event that it keeps it answers with the verdict that it was given.
#[derive(Debug, Drop)]
pub struct ListBook {
    shape: Shape,
    events: Vec<ClientEvent>,
    limit: usize,
    verdict: Verdict,
    counts: BookCounts,
}

impl Model for ListBook {
    ghost use Rattle.std.specs.Prelude.{◌≤◌, length, vec_capacity};
    ghost use Rattle.dt_ports.specs.ListBook.{BookInMemory};

    ghost Value = { BookInMemory };

    ghost view = { λ book. record {
      shape = book.shape;
      events = book.events.items;
      limit = book.limit;
      verdict = book.verdict;
      counts = book.counts;
    } };

    ghost invariant = { λ book. (length book.events.items ≤ book.limit) × (book.limit ≤ vec_capacity book.events) };
}

impl ListBook {
    /// A book of no events, with room for so many, that is to show this verdict.
    pub fn new(
        alloc: Global,
        shape: Shape,
        limit: usize,
        verdict: Verdict,
    ) -> Result<ListBook, Memory>
        ensures { IfOk result (λ book. book ≡ record {
          shape = shape;
          events = [];
          limit = limit;
          verdict = verdict;
          counts = no_appends;
        }) }
    {
        Ok(ListBook {
            shape,
            events: Vec::with_capacity(alloc, limit)?,
            limit,
            verdict,
            counts: BookCounts::new(),
        })
    }

    /// The events kept.
    pub fn events(&self) -> &[ClientEvent]
        ensures { result.now ≡ self.now.events }
    {
        self.events.as_slice()
    }

    /// How often it gave each answer that ends the driving of a connection.
    pub fn counts(&self) -> BookCounts
        ensures { result ≡ self.now.counts }
    {
        self.counts
    }

    /// Keeps an event where there is room; the answer is yet to be counted.
    fn keep(&mut self, event: ClientEvent) -> Appended
        ensures answer { result ≡ book_answer self.old event }
        ensures after { self.new ≡ record self.old { events = (book_after self.old event).events } }
    {
        if self.events.len() < self.limit {
            self.events.push(event).unwrap();
            let place = self.events.len();
            Appended::Kept {
                place,
                verdict: self.verdict,
                fed: place,
            }
        } else {
            Appended::Full(event)
        }
    }
}

impl Book for ListBook {
    ghost shape = { λ book. book.shape };

    ghost name = { λ _. [] };

    ghost events = { λ book. book.events };

    ghost counts = { λ book. book.counts };

    fn append<R: Threads + Wait + Net + Clock + Sync>(
        &mut self,
        _rt: &R,
        _alloc: Global,
        event: ClientEvent,
    ) -> Appended
        requires { IsOfShape self.old.shape event }
        ensures answer { result ≡ book_answer self.old event }
        ensures after { self.new ≡ book_after self.old event }
    {
        let answer = self.keep(event);
        self.counts.note(&answer);
        answer
    }
}
