//! The calls of any link.

use anyhow::{Result, bail};
use dt_ports::link::Link;
use std::alloc::Global;
use std::net::Net;
use std::rt::Clock;
use std::sync::Wait;
use std::thread::Threads;
use test_rows::{first_word, quoted, text_of};

/// What a link answers to a send.
fn send<L: Link>(alloc: Global, link: &mut L, piece: &[u8]) -> Result<String> {
    if piece.is_empty() {
        bail!("no bytes to send");
    }
    let step = link.try_send(piece);
    Ok(format!(in alloc; "{step:?}")?)
}

/// What a link answers to a receive into a room of so many dots, and the room behind it.
fn receive<L: Link>(alloc: Global, link: &mut L, size: usize) -> Result<String> {
    if size == 0 {
        bail!("no room");
    }
    let mut room = vec![in alloc; b'.'; size]?;
    let step = link.try_recv(room.as_mut_slice());
    let room = quoted(alloc, &room)?;
    Ok(format!(in alloc; "{step:?} {room}")?)
}

/// Sends a piece by `send`, receives into a room of so many bytes by `receive`, or waits a while by `wait`.
pub fn answer<R: Threads + Wait + Net + Clock + Sync, L: Link>(
    rt: &R,
    alloc: Global,
    link: &mut L,
    step: &str,
) -> Result<String> {
    let (verb, rest) = first_word(step);
    match verb {
        "send" => send(alloc, link, text_of(alloc, rest)?.as_slice()),
        "receive" => receive(alloc, link, rest.parse()?),
        "wait" => {
            link.wait(rt);
            Ok(String::from_str(alloc, "waited")?)
        }
        _ => bail!("no step"),
    }
}
