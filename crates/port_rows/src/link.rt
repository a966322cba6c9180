//! A link in memory.

use crate::call;
use anyhow::{Result, bail};
use dt_ports::mem_link::MemLink;
use dt_ports::steps::{Incoming, Outgoing};
use std::alloc::Global;
use std::net::Net;
use std::rt::Clock;
use std::sync::Wait;
use std::thread::Threads;
use test_rows::{first_word, quoted, text_of};

/// The step of a receive: a piece between quotes, or a word.
fn incoming(alloc: Global, word: &str) -> Result<Incoming> {
    Ok(match word {
        "not_ready" => Incoming::NotReady,
        "failed" => Incoming::Failed,
        "end" => Incoming::End,
        _ => Incoming::piece(alloc, text_of(alloc, word)?.as_slice())?,
    })
}

/// The step of a send: how many bytes it takes at most, or a word.
fn outgoing(word: &str) -> Result<Outgoing> {
    Ok(match word {
        "not_ready" => Outgoing::NotReady,
        "failed" => Outgoing::Failed,
        _ => Outgoing::AtMost(word.parse()?),
    })
}

/// A link, by the room for what it sends, and then its steps: `<` before each of a receive, and `>` before each of a send.
pub fn begin(alloc: Global, made_of: &str) -> Result<MemLink> {
    let (room, steps) = first_word(made_of);
    let mut receives = Vec::new(alloc);
    let mut sends = Vec::new(alloc);
    for word in steps.split_whitespace() {
        match (word.strip_prefix('<'), word.strip_prefix('>')) {
            (Some(step), _) => receives.push(incoming(alloc, step)?)?,
            (None, Some(step)) => sends.push(outgoing(step)?)?,
            (None, None) => bail!("no step of a link"),
        }
    }
    Ok(MemLink::new(alloc, receives, sends, room.parse()?)?)
}

/// Two links, with `and` between what they are made of.
pub fn two(alloc: Global, made_of: &str) -> Result<(MemLink, MemLink)> {
    match made_of.split_once(" and ") {
        Some((one, other)) => Ok((begin(alloc, one)?, begin(alloc, other)?)),
        None => bail!("no two links"),
    }
}

/// How often each answer was given that moved no bytes.
fn counts(alloc: Global, link: &MemLink) -> Result<String> {
    let counts = link.counts();
    let faults = counts.faults.get();
    let sends = counts.sends_not_ready.get();
    let receives = counts.receives_not_ready.get();
    let ends = counts.ends.get();
    Ok(format!(in alloc;
        "{faults} failed, {sends} sends and {receives} receives not ready, {ends} ended"
    )?)
}

/// Calls the link, or tells what was `sent`, or the `counts`.
pub fn answer<R: Threads + Wait + Net + Clock + Sync>(
    rt: &R,
    alloc: Global,
    link: &mut MemLink,
    step: &str,
) -> Result<String> {
    match step {
        "sent" => quoted(alloc, link.sent()),
        "counts" => counts(alloc, link),
        _ => call::answer(rt, alloc, link, step),
    }
}
