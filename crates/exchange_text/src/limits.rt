//! The limits of actions.

ghost use Rattle.std.specs.Prelude.{◌≡◌, ◌≤◌, ◌↔◌, IsTrue, length, sum_by};
ghost use Rattle.std.specs.List.{AllByRecursion, list_all};
ghost use Rattle.spec_model.specs.Message.{may_stand_in_message};
ghost use Rattle.exchange_text.specs.Actions.{AreParts, IsAction, IsPart, IsPiece, length_of};
ghost use Rattle.exchange_text.specs.ScriptText.{IsScriptAction};

use crate::action::{Action, MAX_AWAITED, MAX_PARTS, MAX_PIECE, MAX_RECEIPT, MAX_START, Part};
use spec_model::event::{Framing, Shape};

/// Whether an action on a connection may stand in a script of a shape and of so many connections.
pub fn is_script_action(shape: &Shape, conns: u16, conn: u16, action: &Action) -> bool
    ensures { IsTrue result ↔ IsScriptAction shape.now conns (conn, action.now) }
{
    conn < conns && is_action(shape, action)
}

/// Whether an action may stand in a script of a shape.
fn is_action(shape: &Shape, action: &Action) -> bool
    ensures { IsTrue result ↔ IsAction shape.now action.now }
{
    match action {
        Action::Send(parts) => are_parts(shape, parts.as_slice()),
        Action::Await(count) => 1 <= *count && *count <= MAX_AWAITED,
    }
}

/// Whether a send may have these parts.
fn are_parts(shape: &Shape, parts: &[Part]) -> bool
    ensures { IsTrue result ↔ AreParts shape.now parts.now }
{
    1 <= parts.len()
        && parts.len() <= MAX_PARTS
        && are_each(shape.framing, parts)
        && are_within(usize::from(shape.limit), parts)
}

/// Whether a send may have each of these parts.
fn are_each(framing: Framing, parts: &[Part]) -> bool
    ensures { IsTrue result ↔ AllByRecursion (IsPart framing) parts.now }
{
    parts.iter().all(|part| is_part(framing, part))
}

/// Whether parts stand for so many bytes at most.
fn are_within(limit: usize, parts: &[Part]) -> bool
    ensures { IsTrue result ↔ (sum_by length_of parts.now ≤ limit) }
{
    let mut room = limit;
    for part in parts {
        match room.checked_sub(length_of(part)) {
            None => return false,
            Some(left) => room = left,
        }
    }
    true
}

/// How many bytes a part stands for.
fn length_of(part: &Part) -> usize
    ensures { result ≡ length_of part.now }
{
    match part {
        Part::Lit(text) => text.len(),
        Part::Piece { len, .. } => usize::from(*len),
    }
}

/// Whether a send may have a part.
fn is_part(framing: Framing, part: &Part) -> bool
    ensures { IsTrue result ↔ IsPart framing part.now }
{
    match part {
        Part::Lit(text) => may_stand_in(framing, text.as_slice()),
        Part::Piece {
            receipt,
            start,
            len,
            fill,
        } => {
            is_piece(*receipt, *start, *len, fill.as_slice())
                && may_stand_in(framing, fill.as_slice())
        }
    }
}

/// Whether the numbers of a piece are within their limits, and what fills in is as long as the piece.
fn is_piece(receipt: u32, start: u16, len: u16, fill: &[u8]) -> bool
    ensures { IsTrue result ↔ IsPiece receipt start len fill.now }
{
    1 <= receipt
        && receipt <= MAX_RECEIPT
        && start <= MAX_START
        && 1 <= len
        && len <= MAX_PIECE
        && fill.len() == usize::from(len)
}

/// Whether each of these bytes may stand in a message.
fn may_stand_in(framing: Framing, bytes: &[u8]) -> bool
    ensures { result ≡ list_all (may_stand_in_message framing) bytes.now }
{
    bytes.iter().all(|byte| framing.may_have(*byte))
}
