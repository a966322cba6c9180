//! A dialer in memory, and the links that it gives.

ghost use Rattle.std.specs.Prelude.{◌≡◌, All, IfOk, Some};
ghost use Rattle.dt_ports.specs.Link.{IsFresh};

use crate::link;
use anyhow::{Result, bail};
use dt_ports::count::Failed;
use dt_ports::dialer::{Dialer, Request};
use dt_ports::mem_dialer::MemDialer;
use dt_ports::mem_link::MemLink;
use std::alloc::Global;
use std::fmt::Write;
use std::net::Net;
use std::rt::Clock;
use std::sync::Wait;
use std::thread::Threads;
use test_rows::{first_word, quoted};

/// A dialer, and the link that it gave last.
#[derive(Drop)]
pub struct DialerAsked {
    dialer: MemDialer<MemLink>,
    given: Option<MemLink>,
}

/// The links that a dialer gives, and the numbers of the calls that fail.
#[derive(Drop)]
struct Supplies {
    links: Vec<MemLink>,
    failing: Vec<u64>,
}

/// The links of words, each by the room for what it sends, and `!N` for the number of each call that fails.
fn supplies_of(alloc: Global, words: &str) -> Result<Supplies>
    ensures { IfOk result (λ supplies. All (λ link. IsFresh link.counts (Some link.sent) (Some link.got)) supplies.links.items) }
{
    let mut links = Vec::new(alloc);
    let mut failing = Vec::new(alloc);
    for word in words.split_whitespace() {
        match word.strip_prefix('!') {
            Some(number) => failing.push(number.parse()?)?,
            None => links.push(MemLink::silent(alloc, word.parse()?)?)?,
        }
    }
    Ok(Supplies { links, failing })
}

impl DialerAsked {
    /// A dialer, by the room for addresses, its links and the calls that fail. It is one without links where it has neither.
    pub fn begin(alloc: Global, made_of: &str) -> Result<DialerAsked> {
        let (room, words) = first_word(made_of);
        let room = room.parse()?;
        let dialer = if words.is_empty() {
            MemDialer::without_links(alloc, room)?
        } else {
            let supplies = supplies_of(alloc, words)?;
            MemDialer::new(alloc, supplies.links, &supplies.failing, room)?
        };
        Ok(DialerAsked {
            dialer,
            given: None,
        })
    }

    /// Keeps the link of an answer, where it has one.
    fn keep(&mut self, alloc: Global, answer: Result<MemLink, Failed>) -> Result<String> {
        match answer {
            Ok(link) => {
                self.given = Some(link);
                Ok(String::from_str(alloc, "a link")?)
            }
            Err(failed) => Ok(format!(in alloc; "{failed:?}")?),
        }
    }

    /// What the dialer answers to a call of `listen`.
    fn listen(&mut self, alloc: Global, address: &str) -> Result<String> {
        let answer = self.dialer.listen(address);
        Ok(format!(in alloc; "{answer:?}")?)
    }

    /// Calls `dial`, `listen` or `accept`, tells the `requests` or the `faults`, or asks the link that was given last.
    pub fn answer<R: Threads + Wait + Net + Clock + Sync>(
        &mut self,
        rt: &R,
        alloc: Global,
        step: &str,
    ) -> Result<String> {
        let (verb, rest) = first_word(step);
        match verb {
            "dial" => {
                let answer = self.dialer.dial(rest);
                self.keep(alloc, answer)
            }
            "listen" => self.listen(alloc, rest),
            "accept" => {
                let answer = self.dialer.accept(rt);
                self.keep(alloc, answer)
            }
            "requests" => requests(alloc, &self.dialer),
            "faults" => Ok(format!(in alloc; "{}", self.dialer.faults())?),
            _ => match &mut self.given {
                Some(given) => link::answer(rt, alloc, given, step),
                None => bail!("no link was given"),
            },
        }
    }
}

/// The requests that a dialer keeps, each with its address in quotes.
fn requests(alloc: Global, dialer: &MemDialer<MemLink>) -> Result<String> {
    let mut told = String::from_str(alloc, "requests:")?;
    for request in dialer.requests() {
        let (kind, address) = match request {
            Request::Dial(address) => ("dial", address),
            Request::Listen(address) => ("listen", address),
        };
        let address = quoted(alloc, address.as_bytes())?;
        write!(told, " {kind} {address}")?;
    }
    Ok(told)
}
