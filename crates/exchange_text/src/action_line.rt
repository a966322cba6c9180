//! Actions as lines.

ghost use Rattle.std.specs.Prelude.{◌≡◌, ◌≢◌, ◌++◌, IfNone, IfOk, IfSome, OnOk, ℕ};
ghost use Rattle.exchange_text.specs.LooseReading.{GivesBack, IsLegible};
ghost use Rattle.exchange_text.specs.ScriptText.{IsScriptAction, action_line};
ghost use Rattle.exchange_text.specs.declared.action.Action.{Action};

use crate::action::Action;
use crate::limits::is_script_action;
use crate::line::{behind_prefix, split_once};
use crate::part_line::{parts_of, put_parts};
use crate::token::{number_of, put_number};
use spec_model::Memory;
use spec_model::event::Shape;
use std::alloc::Global;

/// Puts the line of an action on a connection at the end, without the LF that ends it.
pub fn put_action(out: &mut Vec<u8>, conn: u16, action: &Action) -> Result<(), Memory>
    ensures { OnOk result (out.new.items ≡ out.old.items ++ action_line (conn, action.now)) }
{
    put_number(out, u32::from(conn))?;
    match action {
        Action::Send(parts) => {
            out.extend_from_slice(b" send")?;
            put_parts(out, parts.as_slice())
        }
        Action::Await(count) => {
            out.extend_from_slice(b" await ")?;
            put_number(out, *count)
        }
    }
}

/// The action on a connection that may stand in a script of the shape and of so many connections, and has this line, if one has it. The
/// line is read loosely, and then compared with the one line of what was read.
pub fn read_action(
    alloc: Global,
    shape: Shape,
    conns: u16,
    line: &[u8],
) -> Result<Option<(u16, Action)>, Memory>
    ensures found { IfOk result (λ found. IfSome found (λ action. IsScriptAction shape conns action × (action_line action ≡ line.now))) }
    ensures none { IfOk result (λ found. IfNone found ((action : ℕ × Action) → IsScriptAction shape conns action → action_line action ≢ line.now)) }
{
    let Some((conn, action)) = read_loosely(alloc, line)? else {
        return Ok(None);
    };
    if !is_script_action(&shape, conns, conn, &action) {
        return Ok(None);
    }
    let mut spelled = Vec::with_capacity(alloc, line.len())?;
    put_action(&mut spelled, conn, &action)?;
    if spelled.as_slice() == line {
        Ok(Some((conn, action)))
    } else {
        Ok(None)
    }
}

/// The action of a line, and its connection. Of other lines it makes anything.
fn read_loosely(alloc: Global, line: &[u8]) -> Result<Option<(u16, Action)>, Memory>
    ensures { IfOk result (GivesBack action_line IsLegible line.now) }
{
    let Some((digits, behind)) = split_once(line, b' ') else {
        return Ok(None);
    };
    let conn = number_of(digits);
    if let Some(digits) = behind_prefix(behind, b"await ") {
        return Ok(Some((conn, Action::Await(u32::from(number_of(digits))))));
    }
    match behind_prefix(behind, b"send") {
        None => Ok(None),
        Some(parts) => Ok(Some((conn, Action::Send(parts_of(alloc, parts)?)))),
    }
}
