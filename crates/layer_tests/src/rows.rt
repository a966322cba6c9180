//! Events as the texts of exchanges and worlds have them.

use anyhow::{Result, bail};
use exchange_text::exchange::read_exchange;
use spec_model::event::{ClientEvent, ServerEvent, Shape};
use spec_model::list::Bytes;
use std::alloc::Global;
use test_rows::{first_word, text_of};

/// The event of a client that a line of an exchange has.
pub fn client_event(alloc: Global, shape: &Shape, line: &str) -> Result<ClientEvent> {
    let text = format!(in alloc; "exchange 1\n{line}\nend\n")?;
    match read_exchange(alloc, shape, text.as_bytes())?.pop() {
        Some(event) => Ok(event),
        None => bail!("no event"),
    }
}

/// The connection and the message of the line of a take or a send.
fn passed(alloc: Global, rest: &str) -> Result<(u16, Bytes)> {
    let (conn, message) = first_word(rest);
    Ok((conn.parse()?, text_of(alloc, message)?))
}

/// The event of a server that a line of a world has.
pub fn server_event(alloc: Global, line: &str) -> Result<ServerEvent> {
    let (kind, rest) = first_word(line);
    match kind {
        "take" => {
            let (conn, message) = passed(alloc, rest)?;
            Ok(ServerEvent::Take(conn, message))
        }
        "send" => {
            let (conn, message) = passed(alloc, rest)?;
            Ok(ServerEvent::Send(conn, message))
        }
        "pick" => Ok(ServerEvent::Pick(text_of(alloc, rest)?)),
        "arm" => Ok(ServerEvent::Arm(rest.parse()?)),
        "test" => Ok(ServerEvent::Test(rest == "yes")),
        _ => bail!("no event of a server"),
    }
}
