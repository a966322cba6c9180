//! Silent work.

ghost use Rattle.std.specs.Prelude.{◌≡◌, IfOk, option_map, take};
ghost use Rattle.spec_model.specs.Config.{kind_of};
ghost use Rattle.spec_model.specs.Run.{BeginsWithRecv, Settles};
ghost use Rattle.spec_model.specs.Step.{after_silent_stmt, after_silent_work};
ghost use Rattle.spec_model.specs.declared.tree.Kind.{out-Kind};
ghost use Rattle.server_run.specs.State.{config_of};
ghost use Rattle.server_run.specs.Statement.{after_assignment, after_last_pair};

use crate::lookup::{after_miss, looked_up, pairs_in};
use crate::parts::{entered, with_rest, with_value};
use crate::shared::Shared;
use crate::state::State;
use crate::values::assigned_value;
use spec_model::Memory;
use spec_model::config::Task;
use spec_model::list::{Bytes, List};
use spec_model::tree::{Expr, Kind, Sign, Spec, Stmt};
use std::alloc::Global;

/// What an assignment leaves.
fn after_assignment(
    alloc: Global,
    state: &State,
    rest: &[Shared<Task>],
    name: &Bytes,
    left: &Expr,
    tail: &Option<(Sign, Expr)>,
) -> Result<Option<State>, Memory>
    ensures { IfOk result (λ next. option_map config_of next ≡ after_assignment (config_of state.now) rest.now name.now left.now tail.now) }
{
    let Some(value) = assigned_value(alloc, state, left, tail)? else {
        return Ok(None);
    };
    let registers = with_value(alloc, state.registers.as_slice(), name.as_slice(), &value)?;
    let mut next = with_rest(alloc, state, rest)?;
    next.registers = registers;
    Ok(Some(next))
}

/// What a look-up leaves that has passed all pairs.
fn after_last_pair(
    alloc: Global,
    state: &State,
    rest: &[Shared<Task>],
    passed: usize,
    kind: &Kind,
) -> Result<Option<State>, Memory>
    ensures { IfOk result (λ next. option_map config_of next ≡ after_last_pair (config_of state.now) rest.now passed (out-Kind kind.now)) }
{
    let Some((table, _)) = looked_up(kind) else {
        return Ok(None);
    };
    match pairs_in(state, table) {
        Some(pairs) if passed == pairs.len() => after_miss(alloc, state, rest, kind),
        _ => Ok(None),
    }
}

/// The silent work of a statement.
fn after_silent_stmt(
    alloc: Global,
    state: &State,
    rest: &[Shared<Task>],
    stmt: &Stmt,
    passed: usize,
) -> Result<Option<State>, Memory>
    ensures { IfOk result (λ next. option_map config_of next ≡ after_silent_stmt (config_of state.now) rest.now passed (kind_of stmt.now)) }
{
    match &stmt.kind {
        Kind::Assign { name, left, tail } => after_assignment(alloc, state, rest, name, left, tail),
        _ => after_last_pair(alloc, state, rest, passed, &stmt.kind),
    }
}

/// What the end of a block leaves.
fn after_end(
    alloc: Global,
    state: &State,
    rest: &[Shared<Task>],
    count: usize,
) -> Result<State, Memory>
    ensures { IfOk result (λ next. config_of next ≡ record (config_of state.now) { todo = rest.now; locals = take count (config_of state.now).locals }) }
{
    let mut next = with_rest(alloc, state, rest)?;
    next.locals.truncate(count);
    Ok(next)
}

/// One piece of silent work, or `None` where none is to be done.
fn after_silent_work(alloc: Global, spec: &Spec, state: &State) -> Result<Option<State>, Memory>
    ensures { IfOk result (λ next. option_map config_of next ≡ after_silent_work spec.now (config_of state.now)) }
{
    match state.todo.as_slice() {
        [] => Ok(Some(entered(alloc, state, &[], &spec.body, List::new(alloc))?)),
        [first, rest @ ..] => match first.get() {
            Task::Forget(count) => Ok(Some(after_end(alloc, state, rest, *count)?)),
            Task::Do(stmt, passed) => after_silent_stmt(alloc, state, rest, stmt, *passed),
        },
    }
}

/// The state after all silent work.
pub fn settled(alloc: Global, spec: &Spec, state: State) -> Result<State, Memory>
    requires { BeginsWithRecv spec.now }
    ensures { IfOk result (λ to. Settles spec.now (config_of state) (config_of to)) }
{
    let mut now = state;
    while let Some(next) = after_silent_work(alloc, spec, &now)? {
        now = next;
    }
    Ok(now)
}
