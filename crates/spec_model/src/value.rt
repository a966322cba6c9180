//! Values that a specification gives.

ghost use Rattle.std.specs.Prelude.{◌≡◌, ◌-◌, ◌^◌, ◌≤◌, IfOk};
ghost use Rattle.spec_model.specs.Config.{first_value};
ghost use Rattle.spec_model.specs.Pattern.{hole_value, number_written};

use crate::Memory;
use crate::config::Value;
use crate::cut::number_written;
use crate::list::Bytes;
use crate::tree::{First, HoleKind};
use std::alloc::Global;

/// The value that a declared name begins with, where it is a register.
pub fn first_value(alloc: Global, first: &First) -> Result<Option<Value>, Memory>
    ensures { IfOk result (λ value. value ≡ first_value first.now) }
{
    match first {
        First::Text(text) => Ok(Some(Value::Text(text.copy(alloc)?))),
        First::Num(number) => Ok(Some(Value::Number(*number))),
        First::Conn(conn) => Ok(Some(Value::Number(*conn))),
        First::Table => Ok(None),
    }
}

/// The value of the piece of a message that a hole takes.
pub fn hole_value(alloc: Global, kind: HoleKind, piece: &[u8]) -> Result<Value, Memory>
    requires { kind ≡ HoleKind.Num → number_written piece.now ≤ 2 ^ 64 - 1 }
    ensures { IfOk result (λ value. value ≡ hole_value kind piece.now) }
{
    match kind {
        HoleKind::Num => match number_written(piece) {
            Some(number) => Ok(Value::Number(number)),
            None => unreachable!(),
        },
        HoleKind::Word | HoleKind::Rest => Ok(Value::Text(Bytes::from_slice(alloc, piece)?)),
    }
}
