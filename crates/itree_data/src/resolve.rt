//! What the names in statements stand for.

ghost use Rattle.std.specs.Prelude.{◌≡◌, ◌+◌, IfOk};
ghost use Rattle.spec_rules.specs.Bad.{declares_table};
ghost use Rattle.itree_data.specs.Resolve.{all_resolved, name_resolved, register_named, resolved, resolved_conn, slot_named, slotted, table_named, tail_resolved};

use crate::node::{Slotted, Val};
use spec_model::Memory;
use spec_model::list::List;
use spec_model::tree::{Decl, Expr, First, Item, Sign};
use spec_rules::names::Known;
use std::alloc::{AllocError, Global};

/// Whether a table is declared.
pub fn is_table(decl: &Decl) -> bool
    ensures { result ≡ declares_table decl.now }
{
    match decl.first {
        First::Table => true,
        _ => false,
    }
}

/// A number of a register, a table or a slot. There are far fewer than 65,536 of each in a specification that is accepted.
fn numbered(place: Option<usize>) -> Result<Option<u16>, Memory>
    ensures { IfOk result (λ number. number ≡ place) }
{
    match place {
        None => Ok(None),
        Some(place) => match u16::try_from(place) {
            Ok(number) => Ok(Some(number)),
            Err(_) => Err(AllocError),
        },
    }
}

/// The slot of the local of that name.
fn slot_named(scope: &[Known], name: &[u8]) -> Option<usize>
    ensures { result ≡ slot_named scope.now name.now }
{
    scope.iter().position(|known| known.name.as_slice() == name)
}

/// The number of the register of that name.
fn register_named(decls: &[Decl], name: &[u8]) -> Option<usize>
    ensures { result ≡ register_named decls.now name.now }
{
    decls
        .iter()
        .filter(|decl| !is_table(decl))
        .position(|decl| decl.name.as_slice() == name)
}

/// The number of the table of that name.
fn table_named(decls: &[Decl], name: &[u8]) -> Option<usize>
    ensures { result ≡ table_named decls.now name.now }
{
    decls
        .iter()
        .filter(|decl| is_table(decl))
        .position(|decl| decl.name.as_slice() == name)
}

/// The number of the register of that name.
pub fn register(decls: &[Decl], name: &[u8]) -> Result<Option<u16>, Memory>
    ensures { IfOk result (λ number. number ≡ register_named decls.now name.now) }
{
    numbered(register_named(decls, name))
}

/// The number of the table of that name.
pub fn table(decls: &[Decl], name: &[u8]) -> Result<Option<u16>, Memory>
    ensures { IfOk result (λ number. number ≡ table_named decls.now name.now) }
{
    numbered(table_named(decls, name))
}

/// What a name stands for: a local, or else a register.
fn named(decls: &[Decl], scope: &[Known], name: &[u8]) -> Result<Option<Val>, Memory>
    ensures { IfOk result (λ val. val ≡ name_resolved decls.now scope.now name.now) }
{
    match numbered(slot_named(scope, name))? {
        Some(slot) => Ok(Some(Val::Local(slot))),
        None => match register(decls, name)? {
            Some(register) => Ok(Some(Val::Register(register))),
            None => Ok(None),
        },
    }
}

/// What a written value stands for.
pub fn value(
    alloc: Global,
    decls: &[Decl],
    scope: &[Known],
    expr: &Expr,
) -> Result<Option<Val>, Memory>
    ensures { IfOk result (λ val. val ≡ resolved decls.now scope.now expr.now) }
{
    match expr {
        Expr::Text(text) => Ok(Some(Val::Text(text.copy(alloc)?))),
        Expr::Num(number) => Ok(Some(Val::Num(*number))),
        Expr::Name(name) => named(decls, scope, name.as_slice()),
    }
}

/// What a written value stands for where a connection is asked for.
pub fn conn(
    alloc: Global,
    decls: &[Decl],
    scope: &[Known],
    expr: &Expr,
) -> Result<Option<Val>, Memory>
    ensures { IfOk result (λ val. val ≡ resolved_conn decls.now scope.now expr.now) }
{
    match expr {
        Expr::Text(text) => Ok(Some(Val::Text(text.copy(alloc)?))),
        Expr::Num(number) => Ok(Some(Val::Conn(*number))),
        Expr::Name(name) => named(decls, scope, name.as_slice()),
    }
}

/// What the parts of a send stand for.
pub fn values(
    alloc: Global,
    decls: &[Decl],
    scope: &[Known],
    exprs: &[Expr],
) -> Result<Option<List<Val>>, Memory>
    ensures { IfOk result (λ vals. vals ≡ all_resolved decls.now scope.now exprs.now) }
{
    let mut values = List::new(alloc);
    for expr in exprs {
        let Some(val) = value(alloc, decls, scope, expr)? else {
            return Ok(None);
        };
        values.push(val)?;
    }
    Ok(Some(values))
}

/// What the second value of a sum or difference stands for, where there is one.
pub fn tail_value(
    alloc: Global,
    decls: &[Decl],
    scope: &[Known],
    tail: &Option<(Sign, Expr)>,
) -> Result<Option<Option<(Sign, Val)>>, Memory>
    ensures { IfOk result (λ val. val ≡ tail_resolved decls.now scope.now tail.now) }
{
    match tail {
        None => Ok(Some(None)),
        Some((sign, expr)) => match value(alloc, decls, scope, expr)? {
            None => Ok(None),
            Some(val) => Ok(Some(Some((*sign, val)))),
        },
    }
}

/// The slot behind a slot.
pub fn slot_behind(slot: u16) -> Result<u16, Memory>
    ensures { IfOk result (λ next. next ≡ slot + 1) }
{
    match slot.checked_add(1) {
        Some(next) => Ok(next),
        None => Err(AllocError),
    }
}

/// A pattern whose holes bind the slots from this one on.
pub fn slotted(alloc: Global, first: u16, items: &[Item]) -> Result<List<Slotted>, Memory>
    ensures { IfOk result (λ pattern. pattern ≡ slotted first items.now) }
{
    let mut pattern = List::new(alloc);
    let mut slot = first;
    for item in items {
        match item {
            Item::Lit(text) => pattern.push(Slotted::Lit(text.copy(alloc)?))?,
            Item::Hole(_, kind) => {
                pattern.push(Slotted::Hole(slot, *kind))?;
                slot = slot_behind(slot)?;
            }
        }
    }
    Ok(pattern)
}
