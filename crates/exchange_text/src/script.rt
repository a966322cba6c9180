//! Scripts: what clients are to do on their connections, and the texts of scripts.

ghost use Rattle.std.specs.Prelude.{◌≡◌, ◌≢◌, ◌<◌, ◌^◌, ◌++◌, ◌∷◌, [], IfErr, IfNone, IfOk, IfSome, IsErrAnd, MatchResult, codes, ℕ};
ghost use Rattle.exchange_text.specs.Text.{UnlessMemory, ended_lines};
ghost use Rattle.exchange_text.specs.ScriptText.{AreConns, FitsScript, IsScriptRefused, SpellsScript, conns_line};
ghost use Rattle.exchange_text.specs.declared.refusal.TextRefusal.{TextRefusal};
ghost use Rattle.exchange_text.specs.declared.refusal.TextRefusal.TheVariants.{Memory};
ghost use Rattle.exchange_text.specs.declared.script.Script.{Script};

use crate::action::Action;
use crate::action_line::{put_action, read_action};
use crate::line::{behind_first_line, behind_prefix, next_event_line, next_line};
use crate::refusal::TextRefusal;
use crate::token::{number_of, put_number};
use itoa::Buffer;
use spec_model::Memory;
use spec_model::event::Shape;
use spec_model::list::List;
use std::alloc::Global;

/// The greatest number of actions in the text of a script.
pub const MAX_ACTIONS: usize = 8192;

/// What clients are to do on connections, which are numbered from 0: on each, its actions in this order. Nothing orders the actions of
/// two connections. Definition: own.
#[derive(Debug, Drop, PartialEq, Eq)]
pub struct Script {
    /// The number of connections.
    pub conns: u16,
    /// Each action with the connection on which it is to be done.
    pub actions: List<(u16, Action)>,
}

/// The script that a text spells. It has 1 to as many connections as the shape, each connection in it is below that number, its sends and
/// awaits are within the limits of `Action` and `Part`, the parts of a send make a message of the shape, and it has at most `MAX_ACTIONS`
/// actions. An error other than `Memory` is the refusal of the text, at the first line that cannot be read. The time is linear in the text's length.
pub fn read_script(alloc: Global, shape: &Shape, text: &[u8]) -> Result<Script, TextRefusal>
    ensures found { IfOk result (λ script. FitsScript shape.now script × SpellsScript text.now script) }
    ensures only { (script : Script) → FitsScript shape.now script → SpellsScript text.now script →
        MatchResult result (λ read. read ≡ script) (λ error. error ≡ Memory) }

    ensures refused { IfErr result (λ error. UnlessMemory error (IsScriptRefused shape.now text.now error)) }
    ensures only_refused { (refusal : TextRefusal) → IsScriptRefused shape.now text.now refusal →
        IsErrAnd result (λ error. UnlessMemory error (error ≡ refusal)) }
{
    read_lines(alloc, *shape, text)
}

/// The script that a text spells, line by line. `range` tells callers what a connection's type says.
fn read_lines(alloc: Global, shape: Shape, text: &[u8]) -> Result<Script, TextRefusal>
    ensures found { IfOk result (λ script. FitsScript shape script × SpellsScript text.now script) }
    ensures refused { IfErr result (λ error. UnlessMemory error (IsScriptRefused shape text.now error)) }
    ensures range { shape.conns < 2 ^ 16 }
{
    let (conns, mut rest) = read_first_lines(shape, text)?;
    let mut actions = Vec::new(alloc);
    loop {
        let number = actions.len() + 3;
        let is_full = actions.len() == MAX_ACTIONS;
        let Some((line, behind)) = next_event_line(rest, number, is_full)? else {
            return Ok(Script {
                conns,
                actions: List::from_vec(actions),
            });
        };
        let Some(action) = read_action(alloc, shape, conns, line)? else {
            return Err(TextRefusal::BadLine(number));
        };
        actions.push(action)?;
        rest = behind;
    }
}

/// The number of connections, and what stands behind the first two lines.
fn read_first_lines(shape: Shape, text: &[u8]) -> Result<(u16, &[u8]), TextRefusal>
    ensures found { IfOk result (λ head. AreConns shape head.0 × (text.now ≡ ended_lines (codes "script 1" ∷ conns_line head.0 ∷ []) ++ head.1.now)) }
    ensures refused { IfErr result (λ error. IsScriptRefused shape text.now error) }
{
    let rest = behind_first_line(text, b"script 1")?;
    let Some((line, behind)) = next_line(rest) else {
        return Err(TextRefusal::NoEnd(2));
    };
    match read_conns(shape, line) {
        None => Err(TextRefusal::BadLine(2)),
        Some(conns) => Ok((conns, behind)),
    }
}

/// The number of connections that the second line tells.
fn read_conns(shape: Shape, line: &[u8]) -> Option<u16>
    ensures some { IfSome result (λ conns. AreConns shape conns × (line.now ≡ conns_line conns)) }
    ensures none { IfNone result ((conns : ℕ) → AreConns shape conns → line.now ≢ conns_line conns) }
{
    let digits = behind_prefix(line, b"conns ")?;
    let conns = number_of(digits);
    let mut buffer = Buffer::new();
    let is_spelled_so = buffer.format(conns).as_bytes() == digits;
    if is_spelled_so && 1 <= conns && conns <= shape.conns {
        Some(conns)
    } else {
        None
    }
}

/// The text that spells a script.
pub fn write_script(alloc: Global, script: &Script) -> Result<Vec<u8>, Memory>
    ensures { IfOk result (λ text. SpellsScript text.items script.now) }
{
    let mut text = Vec::from_slice(alloc, b"script 1\nconns ")?;
    put_number(&mut text, u32::from(script.conns))?;
    text.push(b'\n')?;
    for (conn, action) in script.actions.as_slice() {
        put_action(&mut text, *conn, action)?;
        text.push(b'\n')?;
    }
    text.extend_from_slice(b"end\n")?;
    Ok(text)
}
