//! What `judge` answers to long exchanges.

use super::{ECHO, KV, does_judge, does_judge_lines, repeated};
use std::alloc::{AllocError, Global};
use std::test::Fail;

/// Each message is asked for and comes back, so many times.
fn echoes(alloc: Global, front: &str, count: usize, end: &str) -> Result<String, AllocError> {
    repeated(alloc, front, "0 > \"a\"\n0 < \"a\"\n", count, end)
}

#[test]
fn as_many_events_as_there_may_be_are_accepted(rt: HostRuntime) -> Result<(), Fail> {
    let alloc = rt.alloc();
    let lines = echoes(alloc, "", 2048, "")?;
    let world = repeated(
        alloc,
        "ACCEPT\nevents 4096\nworld 1\n",
        "0 > \"a\"\ntake 0 \"a\"\nsend 0 \"a\"\n0 < \"a\"\n",
        2048,
        "end\n",
    )?;
    assert!(rt; does_judge_lines(alloc, ECHO, lines.as_str(), (0, world.as_str()))?);
    Ok(())
}

#[test]
fn one_event_more_is_past_the_limit(rt: HostRuntime) -> Result<(), Fail> {
    let alloc = rt.alloc();
    let events = echoes(alloc, "exchange 1\n", 2048, "0 > \"a\"\nend\n")?;
    let answer = (6, "file 2 text 3 line 4098\n");
    assert!(rt; does_judge(alloc, ECHO, events.as_str(), answer)?);
    Ok(())
}

/// The lines by which 257 keys are stored, one after the other.
fn stored_keys(alloc: Global) -> Result<String, AllocError> {
    let mut lines = String::new(alloc);
    for number in 0..257u16 {
        let line = format!(in alloc; "0 > \"SET k{number} {number}\"\n0 < \"OK\"\n")?;
        lines.push_str(line.as_str())?;
    }
    Ok(lines)
}

/// The world in which they are stored: each new key is compared with all pairs before it, and then put to the front.
fn stored_world(alloc: Global) -> Result<String, AllocError> {
    let mut world = String::from_str(alloc, "ACCEPT\nevents 516\nworld 1\n")?;
    for number in 0..257u16 {
        let asked = format!(in alloc;
            "0 > \"SET k{number} {number}\"\ntake 0 \"SET k{number} {number}\"\n"
        )?;
        let compared = repeated(
            alloc,
            asked.as_str(),
            "test no\n",
            usize::from(number),
            "send 0 \"OK\"\n0 < \"OK\"\n",
        )?;
        world.push_str(compared.as_str())?;
    }
    Ok(world)
}

#[test]
fn the_oldest_of_257_keys_is_forgotten(rt: HostRuntime) -> Result<(), Fail> {
    let alloc = rt.alloc();
    let lines = repeated(
        alloc,
        stored_keys(alloc)?.as_str(),
        "0 > \"GET k0\"\n0 < \"NONE\"\n",
        1,
        "",
    )?;
    // All 256 pairs that are left are compared.
    let world = repeated(
        alloc,
        format!(in alloc;
            "{}0 > \"GET k0\"\ntake 0 \"GET k0\"\n",
            stored_world(alloc)?
        )?
        .as_str(),
        "test no\n",
        256,
        "send 0 \"NONE\"\n0 < \"NONE\"\nend\n",
    )?;
    assert!(rt; does_judge_lines(alloc, KV, lines.as_str(), (0, world.as_str()))?);
    Ok(())
}

#[test]
fn what_is_forgotten_is_not_sent(rt: HostRuntime) -> Result<(), Fail> {
    let alloc = rt.alloc();
    let lines = repeated(
        alloc,
        stored_keys(alloc)?.as_str(),
        "0 > \"GET k0\"\n0 < \"VALUE 0\"\n",
        1,
        "",
    )?;
    let answer = (1, "REJECT 516\nevents 516\nevent 0 < \"VALUE 0\"\n");
    assert!(rt; does_judge_lines(alloc, KV, lines.as_str(), answer)?);
    Ok(())
}
