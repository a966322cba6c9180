//! Events of servers as lines.

ghost use Rattle.std.specs.Prelude.{◌≡◌, ◌≢◌, ◌++◌, IfNone, IfOk, IfSome, OnOk};
ghost use Rattle.spec_model.specs.declared.event.ServerEvent.{ServerEvent};
ghost use Rattle.exchange_text.specs.EventLine.{server_line};
ghost use Rattle.exchange_text.specs.LooseReading.{passed, server_event_behind, server_event_of};
ghost use Rattle.exchange_text.specs.WorldText.{IsServerEvent};

use crate::line::split_once;
use crate::shape::is_server_event;
use crate::token::{number_of, put_number, unquoted};
use spec_model::Memory;
use spec_model::event::{ServerEvent, Shape};
use spec_model::list::Bytes;
use spec_model::quote::put_quotation;
use std::alloc::Global;

/// Puts the line of a server event at the end, without the LF that ends it.
pub fn put_server_event(out: &mut Vec<u8>, event: &ServerEvent) -> Result<(), Memory>
    ensures { OnOk result (out.new.items ≡ out.old.items ++ server_line event.now) }
{
    match event {
        ServerEvent::Take(conn, message) => {
            out.extend_from_slice(b"take ")?;
            put_number(out, u32::from(*conn))?;
            out.extend_from_slice(b" ")?;
            put_quotation(out, message.as_slice())
        }
        ServerEvent::Arm(arm) => {
            out.extend_from_slice(b"arm ")?;
            put_number(out, u32::from(*arm))
        }
        ServerEvent::Test(true) => out.extend_from_slice(b"test yes"),
        ServerEvent::Test(false) => out.extend_from_slice(b"test no"),
        ServerEvent::Pick(text) => {
            out.extend_from_slice(b"pick ")?;
            put_quotation(out, text.as_slice())
        }
        ServerEvent::Send(conn, message) => {
            out.extend_from_slice(b"send ")?;
            put_number(out, u32::from(*conn))?;
            out.extend_from_slice(b" ")?;
            put_quotation(out, message.as_slice())
        }
    }
}

/// The event that may stand in a world of the shape and has this line, if one has it. The line is read loosely, and
/// then compared with the one line of what was read.
pub fn read_server_event(
    alloc: Global,
    shape: Shape,
    line: &[u8],
) -> Result<Option<ServerEvent>, Memory>
    ensures found { IfOk result (λ found. IfSome found (λ event. IsServerEvent shape event × (server_line event ≡ line.now))) }
    ensures none { IfOk result (λ found. IfNone found ((event : ServerEvent) → IsServerEvent shape event → server_line event ≢ line.now)) }
{
    let Some(event) = read_loosely(alloc, line)? else {
        return Ok(None);
    };
    if !is_server_event(&shape, &event) {
        return Ok(None);
    }
    let mut spelled = Vec::with_capacity(alloc, line.len())?;
    put_server_event(&mut spelled, &event)?;
    if spelled.as_slice() == line {
        Ok(Some(event))
    } else {
        Ok(None)
    }
}

/// The server event of a line. Of other lines it makes anything.
fn read_loosely(alloc: Global, line: &[u8]) -> Result<Option<ServerEvent>, Memory>
    ensures { IfOk result (λ event. event ≡ server_event_of line.now) }
{
    match split_once(line, b' ') {
        None => Ok(None),
        Some((word, behind)) => event_behind(alloc, word, behind),
    }
}

/// The event of a word, by what stands behind it and a space. The words differ in their first two letters.
fn event_behind(alloc: Global, word: &[u8], behind: &[u8]) -> Result<Option<ServerEvent>, Memory>
    ensures { IfOk result (λ event. event ≡ server_event_behind word.now behind.now) }
{
    match word {
        [b'a', _, ..] => Ok(Some(ServerEvent::Arm(number_of(behind)))),
        [b'p', _, ..] => Ok(Some(ServerEvent::Pick(unquoted(alloc, behind)?))),
        [b's', _, ..] => Ok(passed(alloc, behind)?.map(|(conn, message)| ServerEvent::Send(
            conn, message,
        ))),
        [_, b'a', ..] => Ok(passed(alloc, behind)?.map(|(conn, message)| ServerEvent::Take(
            conn, message,
        ))),
        [_, _, ..] => Ok(Some(ServerEvent::Test(matches!(behind, [b'y', ..])))),
        _ => Ok(None),
    }
}

/// The connection and the message of a take or a send.
fn passed(alloc: Global, bytes: &[u8]) -> Result<Option<(u16, Bytes)>, Memory>
    ensures { IfOk result (λ parts. parts ≡ passed bytes.now) }
{
    match split_once(bytes, b' ') {
        None => Ok(None),
        Some((digits, quotation)) => Ok(Some((number_of(digits), unquoted(alloc, quotation)?))),
    }
}
