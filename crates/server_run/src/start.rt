//! The state from which a server begins.

ghost use Rattle.std.specs.Prelude.{◌≡◌, IfOk, filter_map};
ghost use Rattle.spec_model.specs.Config.{first_config, idle_config, register_of, table_of};
ghost use Rattle.server_run.specs.State.{config_of};

use crate::parts::{bound_to, entered};
use crate::passed::Passed;
use crate::shared::Shared;
use crate::state::State;
use spec_model::Memory;
use spec_model::config::{Binding, Table};
use spec_model::copy::TryCopy;
use spec_model::list::List;
use spec_model::tree::{Decl, First, Spec};
use spec_model::value::first_value;
use std::alloc::Global;

/// The register that is declared, where one is.
fn register_of(alloc: Global, decl: &Decl) -> Result<Option<Shared<Binding>>, Memory>
    ensures { IfOk result (λ register. register ≡ register_of decl.now) }
{
    match first_value(alloc, &decl.first)? {
        None => Ok(None),
        Some(value) => Ok(Some(bound_to(alloc, &decl.name, value)?)),
    }
}

/// The table that is declared, where one is.
fn table_of(alloc: Global, decl: &Decl) -> Result<Option<Shared<Table>>, Memory>
    ensures { IfOk result (λ table. table ≡ table_of decl.now) }
{
    match decl.first {
        First::Table => {
            let table = Table {
                name: decl.name.copy(alloc)?,
                pairs: List::new(alloc),
            };
            Ok(Some(Shared::new(alloc, table)?))
        }
        _ => Ok(None),
    }
}

/// The declared registers.
fn registers_of(alloc: Global, decls: &[Decl]) -> Result<List<Shared<Binding>>, Memory>
    ensures { IfOk result (λ registers. registers ≡ filter_map register_of decls.now) }
{
    let mut registers = List::new(alloc);
    for decl in decls {
        registers.push_some(register_of(alloc, decl)?)?;
    }
    Ok(registers)
}

/// The declared tables.
fn tables_of(alloc: Global, decls: &[Decl]) -> Result<List<Shared<Table>>, Memory>
    ensures { IfOk result (λ tables. tables ≡ filter_map table_of decls.now) }
{
    let mut tables = List::new(alloc);
    for decl in decls {
        tables.push_some(table_of(alloc, decl)?)?;
    }
    Ok(tables)
}

/// The state in which nothing is done, and nothing is to be done before the loop.
fn idle_state(alloc: Global, spec: &Spec) -> Result<State, Memory>
    ensures { IfOk result (λ state. config_of state ≡ idle_config spec.now) }
{
    Ok(State {
        todo: List::new(alloc),
        registers: registers_of(alloc, spec.decls.as_slice())?,
        tables: tables_of(alloc, spec.decls.as_slice())?,
        locals: List::new(alloc),
        passed: Passed::nothing(spec.shape.conns),
    })
}

/// The state from which a server begins, before the silent work.
pub fn first_state(alloc: Global, spec: &Spec) -> Result<State, Memory>
    ensures { IfOk result (λ state. config_of state ≡ first_config spec.now) }
{
    let idle = idle_state(alloc, spec)?;
    match &spec.start {
        None => Ok(idle),
        Some(block) => entered(alloc, &idle, &[], block, List::new(alloc)),
    }
}
