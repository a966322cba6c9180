//! What clients are to do, and what they send then.

ghost use Rattle.std.specs.Prelude.{◌≡◌, IfOk, option_map};
ghost use Rattle.exchange_text.specs.Resolved.{piece_of, receipt_numbered, resolved, resolved_part};

use spec_model::Memory;
use spec_model::list::{Bytes, List};
use std::alloc::Global;

/// The greatest number of parts of a send.
pub const MAX_PARTS: usize = 16;
/// The greatest number of messages that are awaited.
pub const MAX_AWAITED: u32 = 4096;
/// The greatest number of a message of which a piece is sent.
pub const MAX_RECEIPT: u32 = 4096;
/// The greatest place at which a piece begins.
pub const MAX_START: u16 = 4095;
/// The greatest length of a piece.
pub const MAX_PIECE: u16 = 64;

/// What a client is to do on a connection. Definition: own.
#[derive(Debug, Drop, PartialEq, Eq)]
pub enum Action {
    /// To send the message that these parts make, joined. A script has 1 to 16 of them in a send.
    Send(List<Part>),
    /// To wait until so many messages have been received on the connection in all. In a script there are 1 to 4,096.
    Await(u32),
}

/// A part of a message that is sent. Definition: own.
#[derive(Debug, Drop, PartialEq, Eq)]
pub enum Part {
    /// These bytes.
    Lit(Bytes),
    /// The `len` bytes from `start`, counted from 0, of the message of number `receipt`, counted from 1, among those that were
    /// received on the connection; `fill`, where there are not so many. In a script `receipt` is 1 to 4,096, `start` at most
    /// 4,095, and `len`, which is the length of `fill`, 1 to 64.
    Piece {
        receipt: u32,
        start: u16,
        len: u16,
        fill: Bytes,
    },
}

/// The message that these parts make, joined, where these messages were received on the connection before, in this order.
pub fn resolve(alloc: Global, parts: &[Part], receipts: &[Bytes]) -> Result<Bytes, Memory>
    ensures { IfOk result (λ message. message ≡ resolved parts.now receipts.now) }
{
    let mut message = Vec::new(alloc);
    for part in parts {
        message.extend_from_slice(part.resolved(receipts))?;
    }
    Ok(List::from_vec(message))
}

impl Part {
    /// The bytes that the part stands for.
    fn resolved<'a>(&'a self, receipts: &'a [Bytes]) -> &'a [u8]
        ensures { result.now ≡ resolved_part receipts.now self.now }
    {
        match self {
            Part::Lit(text) => text.as_slice(),
            Part::Piece {
                receipt,
                start,
                len,
                fill,
            } => piece_of(receipts, *receipt, *start, *len).unwrap_or(fill.as_slice()),
        }
    }
}

/// So many bytes from a place in the message of this number, where it has so many.
fn piece_of(receipts: &[Bytes], receipt: u32, start: u16, len: u16) -> Option<&[u8]>
    ensures { option_map (λ piece. piece.now) result ≡ piece_of start len (receipt_numbered receipt receipts.now) }
{
    let message = receipt_numbered(receipts, receipt)?;
    let start = usize::from(start);
    message.get(start..start + usize::from(len))
}

/// The message of this number, counted from 1.
fn receipt_numbered(receipts: &[Bytes], number: u32) -> Option<&[u8]>
    ensures { option_map (λ message. message.now) result ≡ receipt_numbered number receipts.now }
{
    let place = number.checked_sub(1)?;
    let message = receipts.get(place as usize)?;
    Some(message.as_slice())
}
