//! Parts of states.

ghost use Rattle.std.specs.Prelude.{◌≡◌, ◌∷◌, IfOk, length, map};
ghost use Rattle.spec_model.specs.Config.{after_entering, begin, stmts_of, with_value};
ghost use Rattle.spec_model.specs.Table.{with_pairs};
ghost use Rattle.server_run.specs.Parts.{tables_with};
ghost use Rattle.server_run.specs.State.{config_of};
ghost use Rattle.spec_model.specs.declared.config.Task.TheVariants.{Forget};

use crate::shared::Shared;
use crate::state::State;
use spec_model::Memory;
use spec_model::config::{Binding, Pair, Table, Task, Value};
use spec_model::copy::{TryCopy, copy_of};
use spec_model::list::{Bytes, List};
use spec_model::tree::{Block, Stmt};
use std::alloc::Global;

/// A name, bound to this value.
pub fn bound_to(alloc: Global, name: &Bytes, value: Value) -> Result<Shared<Binding>, Memory>
    ensures { IfOk result (λ binding. binding ≡ record { name = name.now; value = value }) }
{
    let name = name.copy(alloc)?;
    Shared::new(alloc, Binding { name, value })
}

/// The state with these things to do.
pub fn with_todo(alloc: Global, state: &State, todo: List<Shared<Task>>) -> Result<State, Memory>
    ensures { IfOk result (λ next. config_of next ≡ record (config_of state.now) { todo = todo }) }
{
    Ok(State {
        todo,
        registers: copy_of(alloc, state.registers.as_slice())?,
        tables: copy_of(alloc, state.tables.as_slice())?,
        locals: copy_of(alloc, state.locals.as_slice())?,
        passed: state.passed.copy(),
    })
}

/// The state with the rest to do.
pub fn with_rest(alloc: Global, state: &State, rest: &[Shared<Task>]) -> Result<State, Memory>
    ensures { IfOk result (λ next. config_of next ≡ record (config_of state.now) { todo = rest.now }) }
{
    with_todo(alloc, state, copy_of(alloc, rest)?)
}

/// The statements, not begun.
fn begun(alloc: Global, stmts: &[Stmt]) -> Result<List<Shared<Task>>, Memory>
    ensures { IfOk result (λ tasks. tasks ≡ map begin stmts.now) }
{
    let mut tasks = List::new(alloc);
    for stmt in stmts {
        tasks.push(Shared::new(alloc, Task::Do(stmt.copy(alloc)?, 0))?)?;
    }
    Ok(tasks)
}

/// The state after a block is entered in which these names are bound.
pub fn entered(
    alloc: Global,
    state: &State,
    rest: &[Shared<Task>],
    block: &Block,
    bound: List<Shared<Binding>>,
) -> Result<State, Memory>
    ensures { IfOk result (λ next. config_of next ≡ after_entering (config_of state.now) rest.now block.now bound) }
{
    let mut todo = begun(alloc, block.stmts.as_slice())?;
    todo.push(Shared::new(alloc, Task::Forget(state.locals.len()))?)?;
    todo.append(copy_of(alloc, rest)?)?;
    let mut next = with_todo(alloc, state, todo)?;
    next.locals.append(bound)?;
    Ok(next)
}

/// The bindings with that name bound to that value.
pub fn with_value(
    alloc: Global,
    bindings: &[Shared<Binding>],
    name: &[u8],
    value: &Value,
) -> Result<List<Shared<Binding>>, Memory>
    ensures { IfOk result (λ after. after ≡ with_value bindings.now name.now value.now) }
{
    let mut after = List::new(alloc);
    for binding in bindings {
        let next = if binding.get().name.as_slice() == name {
            bound_to(alloc, &binding.get().name, value.copy(alloc)?)?
        } else {
            binding.copy(alloc)?
        };
        after.push(next)?;
    }
    Ok(after)
}

/// The tables with these pairs in that one.
fn tables_with(
    alloc: Global,
    tables: &[Shared<Table>],
    name: &[u8],
    pairs: &[Pair],
) -> Result<List<Shared<Table>>, Memory>
    ensures { IfOk result (λ after. after ≡ tables_with tables.now name.now pairs.now) }
{
    let mut after = List::new(alloc);
    for table in tables {
        let next = if table.get().name.as_slice() == name {
            Shared::new(
                alloc,
                Table {
                    name: table.get().name.copy(alloc)?,
                    pairs: copy_of(alloc, pairs)?,
                },
            )?
        } else {
            table.copy(alloc)?
        };
        after.push(next)?;
    }
    Ok(after)
}

/// The state with the rest to do and these pairs in that table.
pub fn with_pairs(
    alloc: Global,
    state: &State,
    rest: &[Shared<Task>],
    name: &[u8],
    pairs: &[Pair],
) -> Result<State, Memory>
    ensures { IfOk result (λ next. config_of next ≡
        with_pairs (record (config_of state.now) { todo = rest.now }) name.now pairs.now) }
{
    let tables = tables_with(alloc, state.tables.as_slice(), name, pairs)?;
    let mut next = with_rest(alloc, state, rest)?;
    next.tables = tables;
    Ok(next)
}
