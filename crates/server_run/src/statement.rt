//! What an event of a statement leaves.

ghost use Rattle.std.specs.Prelude.{◌≡◌, ◌-◌, ◌^◌, ◌<◌, [], IfOk, option_map, slice_get, ℕ};
ghost use Rattle.spec_model.specs.Config.{after_entering, kind_of};
ghost use Rattle.spec_model.specs.Step.{after_comparison, after_event, after_send, after_stmt, after_take, bound_conn, may_take};
ghost use Rattle.spec_model.specs.declared.event.ServerEvent.TheVariants as events;
ghost use Rattle.server_run.specs.Cases.{entry_of};
ghost use Rattle.server_run.specs.State.{config_of};
ghost use Rattle.server_run.specs.Statement.{after_if, after_look_up, after_pick, after_test, after_where};

use crate::cases::{Entry, chosen_case};
use crate::lookup::{after_hit, key_is_at, looked_up};
use crate::message::parts_sent;
use crate::parts::{bound_to, entered, with_rest, with_todo};
use crate::shared::Shared;
use crate::state::State;
use crate::values::{number_of, truth_of};
use spec_model::Memory;
use spec_model::config::{Binding, Task, Value};
use spec_model::copy::{TryCopy, copy_of};
use spec_model::event::ServerEvent;
use spec_model::list::{Bytes, List, joined};
use spec_model::pick::may_be_picked;
use spec_model::tree::{Alphabet, Block, Chan, Cond, Kind, Spec, Stmt};
use std::alloc::Global;

/// Whether a message may be taken from this connection.
fn may_take(state: &State, chan: &Chan, conn: u16) -> Option<bool>
    ensures { result ≡ may_take (config_of state.now) chan.now conn }
{
    match chan {
        Chan::Bind(_) => Some(true),
        Chan::From(named) => {
            let number = number_of(state, named)?;
            Some(number == u64::from(conn))
        }
    }
}

/// The name that a `recv` binds to the connection.
fn bound_conn(alloc: Global, chan: &Chan, conn: u16) -> Result<List<Shared<Binding>>, Memory>
    ensures { IfOk result (λ bound. bound ≡ bound_conn chan.now conn) }
{
    match chan {
        Chan::Bind(name) => {
            let mut bound = List::new(alloc);
            bound.push(bound_to(alloc, name, Value::Number(u64::from(conn)))?)?;
            Ok(bound)
        }
        Chan::From(_) => Ok(List::new(alloc)),
    }
}

/// The state after a message is taken, in the case that was chosen.
fn after_take(
    alloc: Global,
    state: &State,
    rest: &[Shared<Task>],
    chan: &Chan,
    conn: u16,
    message: &Bytes,
    entry: Entry<'_>,
) -> Result<State, Memory>
    ensures { IfOk result (λ next. config_of next ≡ after_take (config_of state.now) rest.now chan.now conn message.now (entry_of entry.entry)) }
{
    let Entry { block, bound } = entry;
    let mut all_bound = bound_conn(alloc, chan, conn)?;
    all_bound.append(bound)?;
    let mut next = entered(alloc, state, rest, block, all_bound)?;
    next.passed = state.passed.with_taken(conn, message);
    Ok(next)
}

/// What taking a message leaves.
fn after_recv(
    alloc: Global,
    spec: &Spec,
    state: &State,
    rest: &[Shared<Task>],
    stmt: &Stmt,
    conn: u16,
    message: &Bytes,
) -> Result<Option<State>, Memory>
    ensures { (passed : ℕ) → IfOk result (λ next. option_map config_of next ≡
        after_stmt spec.now (config_of state.now) rest.now stmt.now passed (kind_of stmt.now) (events.Take conn message.now)) }
{
    let Kind::Recv {
        chan,
        cases,
        other,
        rest: block,
    } = &stmt.kind
    else {
        return Ok(None);
    };
    match may_take(state, chan, conn) {
        Some(true) if spec.shape.may_pass(conn, message.as_slice()) => {
            let entry = chosen_case(alloc, cases.as_slice(), other, block, message.as_slice())?;
            Ok(Some(after_take(alloc, state, rest, chan, conn, message, entry)?))
        }
        _ => Ok(None),
    }
}

/// The state after a message is sent.
fn after_send(
    alloc: Global,
    state: &State,
    rest: &[Shared<Task>],
    conn: u16,
    pieces: List<Bytes>,
) -> Result<State, Memory>
    ensures { IfOk result (λ next. config_of next ≡ after_send (config_of state.now) rest.now conn pieces) }
{
    let mut next = with_rest(alloc, state, rest)?;
    next.passed = state.passed.with_sent(conn, &pieces);
    Ok(next)
}

/// What sending a message leaves.
fn after_sending(
    alloc: Global,
    spec: &Spec,
    state: &State,
    rest: &[Shared<Task>],
    stmt: &Stmt,
    conn: u16,
    message: &Bytes,
) -> Result<Option<State>, Memory>
    ensures { (passed : ℕ) → IfOk result (λ next. option_map config_of next ≡
        after_stmt spec.now (config_of state.now) rest.now stmt.now passed (kind_of stmt.now) (events.Send conn message.now)) }
{
    let Kind::Send { conn: named, parts } = &stmt.kind else {
        return Ok(None);
    };
    let Some(number) = number_of(state, named) else {
        return Ok(None);
    };
    let Some(pieces) = parts_sent(alloc, state, parts.as_slice())? else {
        return Ok(None);
    };
    let text = joined(alloc, pieces.as_slice())?;
    if number == u64::from(conn)
        && message.as_slice() == text.as_slice()
        && spec.shape.may_pass(conn, message.as_slice())
    {
        Ok(Some(after_send(alloc, state, rest, conn, pieces)?))
    } else {
        Ok(None)
    }
}

/// What picking a text leaves.
fn after_pick(
    alloc: Global,
    spec: &Spec,
    state: &State,
    rest: &[Shared<Task>],
    name: &Bytes,
    len: u64,
    alphabet: Alphabet,
    text: &Bytes,
) -> Result<Option<State>, Memory>
    ensures { IfOk result (λ next. option_map config_of next ≡ after_pick spec.now (config_of state.now) rest.now name.now len alphabet text.now) }
{
    if !may_be_picked(spec.shape.framing, len, alphabet, text.as_slice()) {
        return Ok(None);
    }
    let mut next = with_rest(alloc, state, rest)?;
    next.locals
        .push(bound_to(alloc, name, Value::Text(text.copy(alloc)?))?)?;
    Ok(Some(next))
}

/// What choosing an arm leaves.
fn after_arm(
    alloc: Global,
    state: &State,
    rest: &[Shared<Task>],
    arms: &[Block],
    arm: u16,
) -> Result<Option<State>, Memory>
    ensures { IfOk result (λ next. option_map config_of next ≡ option_map (λ block. after_entering (config_of state.now) rest.now block []) (slice_get arms.now arm)) }
{
    match arms.get(usize::from(arm)) {
        None => Ok(None),
        Some(block) => Ok(Some(entered(alloc, state, rest, block, List::new(alloc))?)),
    }
}

/// What a test at an `if` leaves.
fn after_if(
    alloc: Global,
    state: &State,
    rest: &[Shared<Task>],
    cond: &Cond,
    holds: &Block,
    fails: &Block,
    outcome: bool,
) -> Result<Option<State>, Memory>
    ensures { IfOk result (λ next. option_map config_of next ≡ after_if (config_of state.now) rest.now cond.now holds.now fails.now outcome) }
{
    match truth_of(state, cond) {
        Some(truth) if truth == outcome => {
            let block = if outcome { holds } else { fails };
            Ok(Some(entered(alloc, state, rest, block, List::new(alloc))?))
        }
        _ => Ok(None),
    }
}

/// What a test at a `where` leaves.
fn after_where(
    alloc: Global,
    state: &State,
    rest: &[Shared<Task>],
    cond: &Cond,
    outcome: bool,
) -> Result<Option<State>, Memory>
    ensures { IfOk result (λ next. option_map config_of next ≡ after_where (config_of state.now) rest.now cond.now outcome) }
{
    match truth_of(state, cond) {
        Some(true) if outcome => Ok(Some(with_rest(alloc, state, rest)?)),
        _ => Ok(None),
    }
}

/// What a comparison of a look-up leaves.
fn after_comparison(
    alloc: Global,
    state: &State,
    rest: &[Shared<Task>],
    stmt: &Stmt,
    passed: usize,
    outcome: bool,
) -> Result<Option<State>, Memory>
    requires { passed < 2 ^ 64 - 1 }
    ensures { IfOk result (λ next. option_map config_of next ≡ after_comparison (config_of state.now) rest.now stmt.now passed (kind_of stmt.now) outcome) }
{
    if outcome {
        return after_hit(alloc, state, rest, passed, &stmt.kind);
    }
    let mut todo = List::new(alloc);
    todo.push(Shared::new(alloc, Task::Do(stmt.copy(alloc)?, passed + 1))?)?;
    todo.append(copy_of(alloc, rest)?)?;
    Ok(Some(with_todo(alloc, state, todo)?))
}

/// What a test at a look-up leaves.
fn after_look_up(
    alloc: Global,
    state: &State,
    rest: &[Shared<Task>],
    stmt: &Stmt,
    passed: usize,
    outcome: bool,
) -> Result<Option<State>, Memory>
    ensures { IfOk result (λ next. option_map config_of next ≡ after_look_up (config_of state.now) rest.now stmt.now passed (kind_of stmt.now) outcome) }
{
    let Some((table, key)) = looked_up(&stmt.kind) else {
        return Ok(None);
    };
    match key_is_at(state, table, key, passed) {
        Some(equal) if equal == outcome => after_comparison(
            alloc, state, rest, stmt, passed, outcome,
        ),
        _ => Ok(None),
    }
}

/// What a test leaves.
fn after_test(
    alloc: Global,
    state: &State,
    rest: &[Shared<Task>],
    stmt: &Stmt,
    passed: usize,
    outcome: bool,
) -> Result<Option<State>, Memory>
    ensures { IfOk result (λ next. option_map config_of next ≡ after_test (config_of state.now) rest.now stmt.now passed (kind_of stmt.now) outcome) }
{
    match &stmt.kind {
        Kind::If { cond, yes, no } => after_if(alloc, state, rest, cond, yes, no, outcome),
        Kind::Assume { cond } => after_where(alloc, state, rest, cond, outcome),
        _ => after_look_up(alloc, state, rest, stmt, passed, outcome),
    }
}

/// The state that an event of a statement leaves, before the silent work.
fn after_stmt(
    alloc: Global,
    spec: &Spec,
    state: &State,
    rest: &[Shared<Task>],
    stmt: &Stmt,
    passed: usize,
    event: &ServerEvent,
) -> Result<Option<State>, Memory>
    ensures { IfOk result (λ next. option_map config_of next ≡ after_stmt spec.now (config_of state.now) rest.now stmt.now passed (kind_of stmt.now) event.now) }
{
    match event {
        ServerEvent::Take(conn, message) => after_recv(
            alloc, spec, state, rest, stmt, *conn, message,
        ),
        ServerEvent::Send(conn, message) => after_sending(
            alloc, spec, state, rest, stmt, *conn, message,
        ),
        ServerEvent::Pick(text) => match &stmt.kind {
            Kind::Pick {
                name,
                len,
                alphabet,
            } => { after_pick(alloc, spec, state, rest, name, *len, *alphabet, text) }
            _ => Ok(None),
        },
        ServerEvent::Arm(arm) => match &stmt.kind {
            Kind::Either { arms } => after_arm(alloc, state, rest, arms.as_slice(), *arm),
            _ => Ok(None),
        },
        ServerEvent::Test(outcome) => after_test(alloc, state, rest, stmt, passed, *outcome),
    }
}

/// The state that an event leaves, before the silent work; `None` where the server has no such step.
pub fn after_event(
    alloc: Global,
    spec: &Spec,
    state: &State,
    event: &ServerEvent,
) -> Result<Option<State>, Memory>
    ensures { IfOk result (λ next. option_map config_of next ≡ after_event spec.now (config_of state.now) event.now) }
{
    match state.todo.as_slice() {
        [first, rest @ ..] => match first.get() {
            Task::Do(stmt, passed) => after_stmt(alloc, spec, state, rest, stmt, *passed, event),
            Task::Forget(_) => Ok(None),
        },
        [] => Ok(None),
    }
}
