//! The locals in scope, in the order of their slots.

ghost use Rattle.std.specs.Prelude.{◌≡◌, ◌++◌, ◌∷◌, [], IfOk};
ghost use Rattle.spec_rules.specs.Names.{local, names_of_chan, names_of_pattern};
ghost use Rattle.itree_data.specs.Scope.{bound_by};

use spec_model::Memory;
use spec_model::copy::copy_of;
use spec_model::list::Bytes;
use spec_model::tree::{Chan, Item, Stmt};
use spec_rules::names::{Known, ValueType, bound_behind, local, names_of_chan, names_of_pattern};
use std::alloc::Global;

/// The same locals.
fn same(alloc: Global, scope: &[Known]) -> Result<Vec<Known>, Memory>
    ensures { IfOk result (λ after. after.items ≡ scope.now) }
{
    Ok(copy_of(alloc, scope)?.into_vec())
}

/// The locals and one more.
pub fn with_local(
    alloc: Global,
    scope: &[Known],
    name: &Bytes,
    kind: ValueType,
) -> Result<Vec<Known>, Memory>
    ensures { IfOk result (λ after. after.items ≡ scope.now ++ local name.now kind ∷ []) }
{
    let mut after = same(alloc, scope)?;
    after.push(local(alloc, name, kind)?)?;
    Ok(after)
}

/// The locals and other names behind them.
fn with_names(alloc: Global, scope: &[Known], mut names: Vec<Known>) -> Result<Vec<Known>, Memory>
    ensures { IfOk result (λ after. after.items ≡ scope.now ++ names.items) }
{
    let mut after = same(alloc, scope)?;
    after.append(&mut names)?;
    Ok(after)
}

/// The locals and the name that a `recv` gives to the connection.
pub fn with_chan(alloc: Global, scope: &[Known], chan: &Chan) -> Result<Vec<Known>, Memory>
    ensures { IfOk result (λ after. after.items ≡ scope.now ++ names_of_chan chan.now) }
{
    with_names(alloc, scope, names_of_chan(alloc, chan)?)
}

/// The locals and the names of a pattern's holes.
pub fn with_pattern(alloc: Global, scope: &[Known], items: &[Item]) -> Result<Vec<Known>, Memory>
    ensures { IfOk result (λ after. after.items ≡ scope.now ++ names_of_pattern items.now) }
{
    with_names(alloc, scope, names_of_pattern(alloc, items)?)
}

/// The locals behind statements.
pub fn behind(alloc: Global, scope: &[Known], stmts: &[Stmt]) -> Result<Vec<Known>, Memory>
    ensures { IfOk result (λ after. after.items ≡ scope.now ++ bound_by stmts.now) }
{
    let mut after = same(alloc, scope)?;
    for stmt in stmts {
        let mut bound = bound_behind(alloc, &stmt.kind)?;
        after.append(&mut bound)?;
    }
    Ok(after)
}
