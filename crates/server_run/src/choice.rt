//! What a server may do next.

ghost use Rattle.std.specs.Prelude.{◌≡◌, IfOk, if◌then◌else◌, min, nat_eq};
ghost use Rattle.spec_model.specs.declared.tree.Kind.{out-Kind};
ghost use Rattle.spec_model.specs.declared.tree.Kind.TheOpen as kinds;
ghost use Rattle.server_run.specs.Options.{conn_named, forced_by, forced_event, forced_test, message_sent, most_arms, most_picked, options_at_recv, options_by, options_in};
ghost use Rattle.server_run.specs.State.{config_of};
ghost use Rattle.server_run.specs.declared.options.Options.TheVariants as options;

use crate::lookup::key_is_at;
use crate::message::{parts_sent, sends_message};
use crate::options::Options;
use crate::state::State;
use crate::values::{number_of, text_of, truth_of};
use spec_model::Memory;
use spec_model::config::Task;
use spec_model::event::ServerEvent;
use spec_model::list::{Bytes, joined};
use spec_model::tree::{Alphabet, Chan, Expr, Kind, Spec};
use std::alloc::Global;

/// Whether a `put` finds its key in the pair at this place; `None` where it can then not go on.
fn put_test(state: &State, table: &[u8], key: &Expr, value: &Expr, passed: usize) -> Option<bool>
    ensures { result ≡ forced_test (config_of state.now) passed (kinds.Put table.now key.now value.now) }
{
    match key_is_at(state, table, key, passed) {
        Some(true) if text_of(state, value).is_none() => None,
        equal => equal,
    }
}

/// The one outcome of the test that a statement makes, where it makes one.
fn forced_test(state: &State, passed: usize, kind: &Kind) -> Option<bool>
    ensures { result ≡ forced_test (config_of state.now) passed (out-Kind kind.now) }
{
    match kind {
        Kind::If { cond, .. } => truth_of(state, cond),
        Kind::Assume { cond } => match truth_of(state, cond) {
            Some(true) => Some(true),
            _ => None,
        },
        Kind::Put { table, key, value } => put_test(state, table.as_slice(), key, value, passed),
        Kind::Lookup { table, key, .. } => key_is_at(state, table.as_slice(), key, passed),
        Kind::Delete { table, key } => key_is_at(state, table.as_slice(), key, passed),
        _ => None,
    }
}

/// The connection that a written value names, where there is one.
fn conn_named(spec: &Spec, state: &State, named: &Expr) -> Option<u16>
    ensures { result ≡ conn_named spec.now (config_of state.now) named.now }
{
    let number = number_of(state, named)?;
    if number < u64::from(spec.shape.conns) {
        Some(number as u16)
    } else {
        None
    }
}

/// The message that a send sends, where it may send one.
fn message_sent(
    alloc: Global,
    spec: &Spec,
    state: &State,
    parts: &[Expr],
) -> Result<Option<Bytes>, Memory>
    ensures { IfOk result (λ message. message ≡ message_sent spec.now (config_of state.now) parts.now) }
{
    let Some(pieces) = parts_sent(alloc, state, parts)? else {
        return Ok(None);
    };
    let message = joined(alloc, pieces.as_slice())?;
    if spec.shape.is_message(message.as_slice()) {
        Ok(Some(message))
    } else {
        Ok(None)
    }
}

/// The one event of a send, where it may show one.
fn forced_send(
    alloc: Global,
    spec: &Spec,
    state: &State,
    named: &Expr,
    parts: &[Expr],
) -> Result<Option<ServerEvent>, Memory>
    ensures { IfOk result (λ event. event ≡ forced_by spec.now (config_of state.now) 0 (kinds.Send named.now parts.now)) }
{
    let Some(conn) = conn_named(spec, state, named) else {
        return Ok(None);
    };
    match message_sent(alloc, spec, state, parts)? {
        None => Ok(None),
        Some(message) => Ok(Some(ServerEvent::Send(conn, message))),
    }
}

/// The one event that a statement may show, where that is a test or a send.
fn forced_by(
    alloc: Global,
    spec: &Spec,
    state: &State,
    passed: usize,
    kind: &Kind,
) -> Result<Option<ServerEvent>, Memory>
    ensures { IfOk result (λ event. event ≡ forced_by spec.now (config_of state.now) passed (out-Kind kind.now)) }
{
    match kind {
        Kind::Send { conn, parts } => forced_send(alloc, spec, state, conn, parts.as_slice()),
        _ => Ok(forced_test(state, passed, kind).map(ServerEvent::Test)),
    }
}

/// The one event that may come next, where that is a test or a send.
pub fn forced_event(
    alloc: Global,
    spec: &Spec,
    state: &State,
) -> Result<Option<ServerEvent>, Memory>
    ensures { IfOk result (λ event. event ≡ forced_event spec.now (config_of state.now)) }
{
    match state.todo.as_slice() {
        [first, ..] => match first.get() {
            Task::Do(stmt, passed) => forced_by(alloc, spec, state, *passed, &stmt.kind),
            Task::Forget(_) => Ok(None),
        },
        [] => Ok(None),
    }
}

/// What a server may do at a `recv`.
fn options_at_recv(spec: &Spec, state: &State, chan: &Chan) -> Options
    ensures { result ≡ options_at_recv spec.now (config_of state.now) chan.now }
{
    match chan {
        Chan::Bind(_) if spec.shape.conns > 0 => Options::Rest(None),
        Chan::Bind(_) => Options::Stuck,
        Chan::From(named) => match conn_named(spec, state, named) {
            Some(conn) => Options::Rest(Some(conn)),
            None => Options::Stuck,
        },
    }
}

/// What a server may do at a send.
fn options_at_send(spec: &Spec, state: &State, named: &Expr, parts: &[Expr]) -> Options
    ensures { result ≡ options_by spec.now (config_of state.now) 0 (kinds.Send named.now parts.now) }
{
    match conn_named(spec, state, named) {
        Some(_) if sends_message(&spec.shape, state, parts) => Options::Forced,
        _ => Options::Stuck,
    }
}

/// What a server may do at an `either`.
fn options_at_either(arms: usize) -> Options
    ensures { result ≡ (if nat_eq arms 0 then options.Stuck else options.Arms (min arms most_arms)) }
{
    if arms == 0 {
        return Options::Stuck;
    }
    Options::Arms(u16::try_from(arms).unwrap_or(u16::MAX))
}

/// What a server may do at a pick.
fn options_at_pick(len: u64, alphabet: Alphabet) -> Options
    ensures { result ≡ options.Pick (min len most_picked) alphabet }
{
    Options::Pick(u8::try_from(len).unwrap_or(u8::MAX), alphabet)
}

/// What a server may do by a statement.
fn options_by(spec: &Spec, state: &State, passed: usize, kind: &Kind) -> Options
    ensures { result ≡ options_by spec.now (config_of state.now) passed (out-Kind kind.now) }
{
    match kind {
        Kind::Recv { chan, .. } => options_at_recv(spec, state, chan),
        Kind::Send { conn, parts } => options_at_send(spec, state, conn, parts.as_slice()),
        Kind::Pick {
            name: _,
            len,
            alphabet,
        } => options_at_pick(*len, *alphabet),
        Kind::Either { arms } => options_at_either(arms.len()),
        _ => match forced_test(state, passed, kind) {
            Some(_) => Options::Forced,
            None => Options::Stuck,
        },
    }
}

/// What a server may do next.
pub fn options_in(spec: &Spec, state: &State) -> Options
    ensures { result ≡ options_in spec.now (config_of state.now) }
{
    match state.todo.as_slice() {
        [first, ..] => match first.get() {
            Task::Do(stmt, passed) => options_by(spec, state, *passed, &stmt.kind),
            Task::Forget(_) => Options::Stuck,
        },
        [] => Options::Stuck,
    }
}
