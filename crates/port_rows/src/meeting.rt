//! Two links in memory that send only once both waited at the same time.

use crate::call;
use anyhow::{Result, bail};
use dt_ports::meet_link::MeetLink;
use std::alloc::Global;
use std::net::Net;
use std::rt::Clock;
use std::sync::Wait;
use std::thread::Threads;
use test_rows::{first_word, quoted};

/// Calls the link that the first word names, `one` or `other`, or tells what it `sent`.
pub fn answer<R: Threads + Wait + Net + Clock + Sync>(
    rt: &R,
    alloc: Global,
    one: &mut MeetLink,
    other: &mut MeetLink,
    step: &str,
) -> Result<String> {
    let (name, step) = first_word(step);
    match (name, step) {
        ("one", "sent") => quoted(alloc, one.sent()),
        ("other", "sent") => quoted(alloc, other.sent()),
        ("one", _) => call::answer(rt, alloc, one, step),
        ("other", _) => call::answer(rt, alloc, other, step),
        _ => bail!("no link"),
    }
}

#[cfg(test)]
mod tests {
    use dt_ports::link::{Link, SendStep};
    use dt_ports::meet_link::MeetLink;
    use dt_ports::mem_link::MemLink;
    use std::test::Fail;
    use std::thread::join_mut;

    /// What no row can show, since rows are answered on one thread.
    #[test]
    fn links_send_once_both_waited(rt: HostRuntime) -> Result<(), Fail> {
        let alloc = rt.alloc();
        let one = MemLink::silent(alloc, 4)?;
        let other = MemLink::silent(alloc, 4)?;
        let (mut one, mut other) = MeetLink::pair(alloc, one, other)?;
        assert_eq!(rt; one.try_send(b"a"), SendStep::NotReady);
        join_mut(&rt, &mut || one.wait(&rt), &mut || other.wait(&rt));
        assert_eq!(rt; one.try_send(b"a"), SendStep::Took(1));
        assert_eq!(rt; other.try_send(b"b"), SendStep::Took(1));
        assert!(rt; one.sent() == b"a".as_slice() && other.sent() == b"b".as_slice());
        Ok(())
    }
}
