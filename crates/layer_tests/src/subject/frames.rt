//! Frames at the edges of both framings.

use anyhow::{Result, bail};
use frame_cut::{FrameCut, next, wrap};
use spec_model::event::{Framing, Shape};
use spec_model::list::Bytes;
use std::alloc::Global;
use test_rows::{first_word, quoted, text_of};

/// Where a frame has its message and how long it is, in words.
fn cut(alloc: Global, shape: &Shape, bytes: &[u8]) -> Result<String> {
    Ok(match next(shape, bytes) {
        FrameCut::Whole { start, len, used } => format!(in alloc; "{start} {len} {used}")?,
        FrameCut::Unfinished => String::from_str(alloc, "unfinished")?,
        FrameCut::Garbled => String::from_str(alloc, "garbled")?,
    })
}

/// The frame of a message, of which no more than the first four bytes are written, and its cut.
fn wrapped(alloc: Global, shape: &Shape, message: &Bytes) -> Result<String> {
    if !shape.is_message(message.as_slice()) {
        bail!("no message");
    }
    let frame = wrap(alloc, shape, message)?;
    let front = frame.get(..4).unwrap_or(frame.as_slice());
    let front = quoted(alloc, front)?;
    Ok(format!(in alloc; "{front} {}", cut(alloc, shape, &frame)?)?)
}

/// What is answered where messages have this limit: `cut` cuts a frame from bytes, `wrap` wraps a message, and `long` one of so many
/// bytes.
pub fn answer_frame(alloc: Global, framing: Framing, step: &str) -> Result<String> {
    let (verb, rest) = first_word(step);
    let (limit, of) = first_word(rest);
    let shape = Shape {
        framing,
        limit: limit.parse()?,
        conns: 1,
    };
    match verb {
        "cut" => cut(alloc, &shape, text_of(alloc, of)?.as_slice()),
        "wrap" => wrapped(alloc, &shape, &text_of(alloc, of)?),
        "long" => wrapped(
            alloc,
            &shape,
            &Bytes::from_vec(vec![in alloc; b'x'; of.parse()?]?),
        ),
        _ => bail!("no step"),
    }
}
