//! Two links in memory, each of which gives its bytes only once the other was sent to.

use crate::call;
use anyhow::{Result, bail};
use dt_ports::gated_link::GatedLink;
use std::alloc::Global;
use std::net::Net;
use std::rt::Clock;
use std::sync::Wait;
use std::thread::Threads;
use test_rows::{first_word, quoted};

/// Calls the link that the first word names, `one` or `other`, or tells what it `sent`.
pub fn answer<R: Threads + Wait + Net + Clock + Sync>(
    rt: &R,
    alloc: Global,
    one: &mut GatedLink,
    other: &mut GatedLink,
    step: &str,
) -> Result<String> {
    let (name, step) = first_word(step);
    match (name, step) {
        ("one", "sent") => quoted(alloc, one.sent()),
        ("other", "sent") => quoted(alloc, other.sent()),
        ("one", _) => call::answer(rt, alloc, one, step),
        ("other", _) => call::answer(rt, alloc, other, step),
        _ => bail!("no link"),
    }
}
