//! A book in memory.

ghost use Rattle.std.specs.Prelude.{◌≡◌};

use anyhow::{Result, bail};
use dt_ports::book::{Appended, Book};
use dt_ports::list_book::ListBook;
use spec_model::event::{ClientEvent, Shape, Verdict};
use std::alloc::Global;
use std::fmt::Write;
use std::net::Net;
use std::rt::Clock;
use std::sync::Wait;
use std::thread::Threads;
use test_rows::{first_word, is_of_shape, quoted, shape, text_of};

/// A book, and the shape of its events.
#[derive(Drop)]
pub struct BookAsked {
    shape: Shape,
    book: ListBook,
    ghost same: { book.shape ≡ shape },
}

/// A verdict: a word, and the event that it names.
fn verdict(words: &str) -> Result<Verdict> {
    let (kind, event) = first_word(words);
    Ok(match kind {
        "open" => Verdict::Open,
        "reject" => Verdict::Reject(event.parse()?),
        "inconclusive" => Verdict::Inconclusive(event.parse()?),
        _ => bail!("no verdict"),
    })
}

/// An event, as exchanges have it in a line.
fn event(alloc: Global, line: &str) -> Result<ClientEvent> {
    let (conn, rest) = first_word(line);
    let conn = conn.parse()?;
    let (kind, message) = first_word(rest);
    Ok(match kind {
        ">" => ClientEvent::Sends(conn, text_of(alloc, message)?),
        "<" => ClientEvent::Receives(conn, text_of(alloc, message)?),
        "garbles" => ClientEvent::Garbles(conn),
        _ => bail!("no event"),
    })
}

/// The line of an event.
fn line(alloc: Global, event: &ClientEvent) -> Result<String> {
    Ok(match event {
        ClientEvent::Sends(conn, message) => {
            let message = quoted(alloc, message.as_slice())?;
            format!(in alloc; "{conn} > {message}")?
        }
        ClientEvent::Receives(conn, message) => {
            let message = quoted(alloc, message.as_slice())?;
            format!(in alloc; "{conn} < {message}")?
        }
        ClientEvent::Garbles(conn) => format!(in alloc; "{conn} garbles")?,
    })
}

/// The answer to an append in words, with the event where it is handed back.
fn told(alloc: Global, answer: &Appended) -> Result<String> {
    Ok(match answer {
        Appended::Kept {
            place,
            verdict,
            fed,
        } => format!(in alloc; "kept {place} {verdict:?} {fed}")?,
        Appended::Full(event) => format!(in alloc; "full {}", line(alloc, event)?)?,
    })
}

/// The lines of the events that a book keeps, each between brackets.
fn events(alloc: Global, book: &ListBook) -> Result<String> {
    let mut told = String::from_str(alloc, "events:")?;
    for event in book.events() {
        let line = line(alloc, event)?;
        write!(told, " ({line})")?;
    }
    Ok(told)
}

impl BookAsked {
    /// A book, by the shape of its events, for how many it has room, and the verdict that it shows.
    pub fn begin(alloc: Global, made_of: &str) -> Result<BookAsked> {
        let Some((shape, rest)) = made_of.split_once(" room ") else {
            bail!("no room");
        };
        let shape = self::shape(shape)?;
        let (room, verdict) = first_word(rest);
        let verdict = self::verdict(verdict)?;
        let book = ListBook::new(alloc, shape, room.parse()?, verdict)?;
        Ok(BookAsked { shape, book })
    }

    /// What the book answers to an event.
    fn append<R: Threads + Wait + Net + Clock + Sync>(
        &mut self,
        rt: &R,
        alloc: Global,
        event: ClientEvent,
    ) -> Result<String> {
        if !is_of_shape(&self.shape, &event) {
            bail!("the event is not of the shape");
        }
        let answer = self.book.append(rt, alloc, event);
        told(alloc, &answer)
    }

    /// How often it was full, and showed another verdict than Open.
    fn counts(&self, alloc: Global) -> Result<String> {
        let counts = self.book.counts();
        let (fulls, stops) = (counts.fulls.get(), counts.stops.get());
        Ok(format!(in alloc; "{fulls} full, {stops} stopped")?)
    }

    /// Tells the `events` or the `counts`, or appends the event of a line.
    pub fn answer<R: Threads + Wait + Net + Clock + Sync>(
        &mut self,
        rt: &R,
        alloc: Global,
        step: &str,
    ) -> Result<String> {
        match step {
            "events" => events(alloc, &self.book),
            "counts" => self.counts(alloc),
            _ => {
                let event = event(alloc, step)?;
                self.append(rt, alloc, event)
            }
        }
    }
}
