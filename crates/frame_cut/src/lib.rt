//! Frames on a stream of bytes: the first frame of the bytes at hand, and the frame of a message.
#![tactic(auto)]

ghost use Rattle.std.specs.Prelude.{◌≡◌, IfOk};
ghost use Rattle.frame_cut.specs.Frame.{IsCut};
ghost use Rattle.spec_model.specs.Message.{IsMessage, frame_of};

use memchr::memchr;
use spec_model::Memory;
use spec_model::event::{Framing, Shape};
use spec_model::list::Bytes;
use std::alloc::Global;

pub mod laws;

/// What the bytes at hand are: one of the three, whatever they are. Definition: own.
#[derive(Clone, Copy, Debug, PartialEq, Eq)]
pub enum FrameCut {
    /// They begin with a frame, which is the first `used` bytes; its message is the `len` bytes from `start`.
    Whole {
        start: usize,
        len: usize,
        used: usize,
    },
    /// They begin with no frame, and are a prefix of none.
    Garbled,
    /// They are a proper prefix of a frame.
    Unfinished,
}

/// The first frame of the bytes at hand, in the framing and within the limit of this shape; its connections play no part. It takes
/// no memory, and of a line it looks at no more bytes than the longest message has and one more.
///
/// So in `line` framing bytes are garbled once one more than the limit came without an LF among them, and in `len16` framing once
/// the first byte, 256 times, is above the limit, or the first two are a length above it. A CR is an ordinary byte. What is garbled
/// stays so, whatever bytes come later.
pub fn next(shape: &Shape, bytes: &[u8]) -> FrameCut
    ensures { IsCut shape.now bytes.now result }
{
    match shape.framing {
        Framing::Line => next_line(shape, bytes),
        Framing::Len16 => next_len16(shape, bytes),
    }
}

/// The first frame in `line` framing.
fn next_line(shape: &Shape, bytes: &[u8]) -> FrameCut
    requires { shape.now.framing ≡ Framing.Line }
    ensures { IsCut shape.now bytes.now result }
{
    let limit = usize::from(shape.limit);
    let window = &bytes[..bytes.len().min(limit + 1)];
    match memchr(b'\n', window) {
        Some(len) => FrameCut::Whole {
            start: 0,
            len,
            used: len + 1,
        },
        None if bytes.len() > limit => FrameCut::Garbled,
        None => FrameCut::Unfinished,
    }
}

/// The first frame in `len16` framing.
fn next_len16(shape: &Shape, bytes: &[u8]) -> FrameCut
    requires { shape.now.framing ≡ Framing.Len16 }
    ensures { IsCut shape.now bytes.now result }
{
    let limit = usize::from(shape.limit);
    match bytes {
        [] => FrameCut::Unfinished,
        [greater] if usize::from(*greater) * 256 > limit => FrameCut::Garbled,
        [_] => FrameCut::Unfinished,
        [greater, lesser, behind @ ..] => {
            let len = usize::from(*greater) * 256 + usize::from(*lesser);
            if len > limit {
                FrameCut::Garbled
            } else if behind.len() < len {
                FrameCut::Unfinished
            } else {
                FrameCut::Whole {
                    start: 2,
                    len,
                    used: 2 + len,
                }
            }
        }
    }
}

/// The frame of a message of this shape: in `line` framing the message and one LF; in `len16` framing its length in two bytes, the
/// greater first, and the message. It is refused for want of memory alone.
pub fn wrap(alloc: Global, shape: &Shape, message: &Bytes) -> Result<Vec<u8>, Memory>
    requires { IsMessage shape.now message.now }
    ensures { IfOk result (λ frame. frame.items ≡ frame_of shape.now.framing message.now) }
{
    // The proof knows that the limit is a u16 once it is read.
    let _limit = shape.limit;
    let mut frame = Vec::with_capacity(alloc, message.len() + 2)?;
    match shape.framing {
        Framing::Line => {
            frame.extend_from_slice(message.as_slice())?;
            frame.push(b'\n')?;
        }
        Framing::Len16 => {
            frame.extend_from_slice(&[(message.len() / 256) as u8, (message.len() % 256) as u8])?;
            frame.extend_from_slice(message.as_slice())?;
        }
    }
    Ok(frame)
}
