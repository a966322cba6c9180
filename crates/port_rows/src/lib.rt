//! Rows of tests about the outside in memory: files, an output, links, what gives links, and a book.
//!
//! A subject is begun by a line of words: its kind, and what it is made of. It answers the steps of rows one by one. All is done on one
//! thread.
#![tactic(auto)]

mod book;
mod call;
mod dialer;
mod files;
mod gated;
mod link;
mod meeting;
mod sink;

use anyhow::{Result, bail};
use book::BookAsked;
use dialer::DialerAsked;
use dt_ports::gated_link::GatedLink;
use dt_ports::meet_link::MeetLink;
use dt_ports::mem_files::MemFiles;
use dt_ports::mem_link::MemLink;
use dt_ports::mem_sink::MemSink;
use std::alloc::Global;
use std::net::Net;
use std::rt::Clock;
use std::sync::Wait;
use std::thread::Threads;
use test_rows::first_word;

/// An object of the outside, in memory, that rows ask.
#[derive(Drop)]
pub enum Port {
    Files(MemFiles),
    Sink(MemSink),
    Link(MemLink),
    Dialer(DialerAsked),
    Book(BookAsked),
    Gated(GatedLink, GatedLink),
    Meeting(MeetLink, MeetLink),
}

impl Port {
    /// The object of a line: a word for its kind, and then what it is made of. An error where these are no such words.
    pub fn begin(alloc: Global, line: &str) -> Result<Port> {
        let (kind, made_of) = first_word(line);
        Ok(match kind {
            "files" => Port::Files(files::begin(alloc, made_of)?),
            "sink" => Port::Sink(MemSink::new(alloc, made_of.parse()?)?),
            "link" => Port::Link(link::begin(alloc, made_of)?),
            "dialer" => Port::Dialer(DialerAsked::begin(alloc, made_of)?),
            "book" => Port::Book(BookAsked::begin(alloc, made_of)?),
            "gated" => {
                let (one, other) = link::two(alloc, made_of)?;
                let (one, other) = GatedLink::pair(alloc, one, other)?;
                Port::Gated(one, other)
            }
            "meeting" => {
                let (one, other) = link::two(alloc, made_of)?;
                let (one, other) = MeetLink::pair(alloc, one, other)?;
                Port::Meeting(one, other)
            }
            _ => bail!("no port"),
        })
    }

    /// What is answered to a row's step. An error where it is none of the object's.
    pub fn answer<R: Threads + Wait + Net + Clock + Sync>(
        &mut self,
        rt: &R,
        alloc: Global,
        step: &str,
    ) -> Result<String> {
        match self {
            Port::Files(files) => files::answer(alloc, files, step),
            Port::Sink(sink) => sink::answer(alloc, sink, step),
            Port::Link(link) => link::answer(rt, alloc, link, step),
            Port::Dialer(dialer) => dialer.answer(rt, alloc, step),
            Port::Book(book) => book.answer(rt, alloc, step),
            Port::Gated(one, other) => gated::answer(rt, alloc, one, other, step),
            Port::Meeting(one, other) => meeting::answer(rt, alloc, one, other, step),
        }
    }
}
