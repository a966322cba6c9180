//! Words of rows of tests: bars, texts between quotes, framings and shapes.
#![tactic(auto)]

ghost use Rattle.std.specs.Prelude.{IsTrue};
ghost use Rattle.spec_model.specs.World.{IsOfShape};

use anyhow::{Result, bail};
use spec_model::event::{ClientEvent, Framing, Shape};
use spec_model::list::Bytes;
use spec_model::quote::{put_quotation, unquoted};
use std::alloc::Global;

/// The two parts of a row around its bar. An error where it has none.
pub fn around_bar(row: &str) -> Result<(&str, &str)> {
    match row.split_once(" | ") {
        Some(parts) => Ok(parts),
        None => bail!("a row without a bar"),
    }
}

/// The first word, and what stands behind it.
pub fn first_word(words: &str) -> (&str, &str) {
    words.split_once(' ').unwrap_or((words, ""))
}

/// A framing by its keyword. An error where it is that of none.
pub fn framing(word: &str) -> Result<Framing> {
    match word {
        "line" => Ok(Framing::Line),
        "len16" => Ok(Framing::Len16),
        _ => bail!("no framing"),
    }
}

/// A shape by its framing, the limit of its messages in bytes, and its number of connections. An error where these are no such words.
pub fn shape(words: &str) -> Result<Shape> {
    let (framing, numbers) = first_word(words);
    let (limit, conns) = first_word(numbers);
    Ok(Shape {
        framing: self::framing(framing)?,
        limit: limit.parse()?,
        conns: conns.parse()?,
    })
}

/// A text between quotes, as it is written.
pub fn quoted(alloc: Global, text: &[u8]) -> Result<String> {
    let mut quoted = Vec::new(alloc);
    put_quotation(&mut quoted, text)?;
    match String::from_utf8(quoted) {
        Ok(quoted) => Ok(quoted),
        Err(_) => bail!("no text"),
    }
}

/// The text between the quotes. An error where these are the quotation of none.
pub fn text_of(alloc: Global, quotation: &str) -> Result<Bytes> {
    let quoted = quotation.as_bytes();
    if quoted.len() < 2 {
        bail!("no quotes");
    }
    match unquoted(alloc, &quoted[1..quoted.len() - 1])? {
        Some(text) => Ok(text),
        None => bail!("no quotation"),
    }
}

/// The word for whether something is so.
pub fn yes_or_no(is_so: bool) -> &'static str {
    if is_so { "yes" } else { "no" }
}

/// Whether an event is of a shape.
pub fn is_of_shape(shape: &Shape, event: &ClientEvent) -> bool
    ensures { IsTrue result → IsOfShape shape.now event.now }
{
    match event {
        ClientEvent::Sends(conn, message) | ClientEvent::Receives(conn, message) => {
            shape.may_pass(*conn, message.as_slice())
        }
        ClientEvent::Garbles(conn) => *conn < shape.conns,
    }
}
