//! The order of a network's queues.

use anyhow::{Result, bail};
use net_world::SimNet;
use spec_model::list::Bytes;
use std::alloc::Global;
use test_rows::{first_word, quoted, text_of};

/// A message that a queue gave, as it is written.
fn given(alloc: Global, message: Option<Bytes>) -> Result<String> {
    match message {
        Some(message) => quoted(alloc, message.as_slice()),
        None => Ok(String::from_str(alloc, "none")?),
    }
}

/// Puts a message into a queue, or takes one out.
pub fn answer(alloc: Global, net: &mut SimNet, step: &str) -> Result<String> {
    let (verb, rest) = first_word(step);
    let (conn, text) = first_word(rest);
    let conn = conn.parse()?;
    if usize::from(conn) >= net.conns() {
        bail!("no such connection");
    }
    match verb {
        "up" => net.up(alloc, conn, text_of(alloc, text)?)?,
        "down" => net.down(alloc, conn, text_of(alloc, text)?)?,
        "take" => return given(alloc, net.take(conn)),
        "receive" => return given(alloc, net.receive(conn)),
        _ => bail!("no step"),
    }
    Ok(String::from_str(alloc, "put")?)
}
