//! The last nodes of statements that take or look up.

ghost use Rattle.std.specs.Prelude.{◌≡◌, ◌++◌, IfOk};
ghost use Rattle.spec_model.specs.declared.tree.Kind.TheOpen as kinds;
ghost use Rattle.spec_rules.specs.Names.{names_of_chan};
ghost use Rattle.itree_data.specs.Leaves.{IsChanFrom, IsChanNamed, IsTableKey, PutsFinding, PutsPairAway, PutsPairIn, PutsTaking, chan_slot};
ghost use Rattle.itree_data.specs.Making.{IsAllSound};

use crate::node::{Change, Check, Node, TakeCase, Val};
use crate::nodes::{Nodes, put, slot_count};
use crate::resolve::{conn, table, value};
use spec_model::Memory;
use spec_model::list::{Bytes, List};
use spec_model::tree::{Chan, Decl, Expr};
use spec_rules::names::Known;
use std::alloc::Global;

/// The nodes of a `put`: the two changes, and the look-up.
pub fn put_pair(
    alloc: Global,
    decls: &[Decl],
    nodes: &mut Nodes,
    scope: &[Known],
    name: &Bytes,
    key: &Expr,
    new: &Expr,
    next: usize,
) -> Result<usize, Memory>
    requires { IsAllSound decls.now scope.now (kinds.Put name.now key.now new.now) }
    ensures { IfOk result (PutsPairIn decls.now scope.now name.now key.now new.now next nodes.old nodes.new) }
{
    let Some(table) = table(decls, name.as_slice())? else {
        unreachable!()
    };
    let Some(add_key) = value(alloc, decls, scope, key)? else {
        unreachable!()
    };
    let Some(added) = value(alloc, decls, scope, new)? else {
        unreachable!()
    };
    let Some(renewed) = value(alloc, decls, scope, new)? else {
        unreachable!()
    };
    let Some(key) = value(alloc, decls, scope, key)? else {
        unreachable!()
    };
    let what = Change::Add {
        table,
        key: add_key,
        value: added,
    };
    let missing = put(nodes, scope, Node::Store { what, next })?;
    let what = Change::Renew {
        table,
        value: renewed,
    };
    let yes = put(nodes, scope, Node::Store { what, next })?;
    let test = Check::Scan { table, key };
    let no = Some(missing);
    let first = put(nodes, scope, Node::Branch { test, yes, no })?;
    Ok(first)
}

/// The nodes of a `del`: the change, and the look-up.
pub fn delete_pair(
    alloc: Global,
    decls: &[Decl],
    nodes: &mut Nodes,
    scope: &[Known],
    name: &Bytes,
    key: &Expr,
    next: usize,
) -> Result<usize, Memory>
    requires { IsAllSound decls.now scope.now (kinds.Delete name.now key.now) }
    ensures { IfOk result (PutsPairAway decls.now scope.now name.now key.now next nodes.old nodes.new) }
{
    let Some(table) = table(decls, name.as_slice())? else {
        unreachable!()
    };
    let Some(key) = value(alloc, decls, scope, key)? else {
        unreachable!()
    };
    let what = Change::Remove { table };
    let yes = put(nodes, scope, Node::Store { what, next })?;
    let test = Check::Scan { table, key };
    let no = Some(next);
    let first = put(nodes, scope, Node::Branch { test, yes, no })?;
    Ok(first)
}

/// The last nodes of a `get`: the change, and the look-up, once those of its blocks are made.
pub fn find_pair(
    alloc: Global,
    decls: &[Decl],
    nodes: &mut Nodes,
    scope: &[Known],
    name: &Bytes,
    key: &Expr,
    found: usize,
    missing: usize,
) -> Result<usize, Memory>
    requires { IsTableKey decls.now scope.now name.now key.now }
    ensures { IfOk result (PutsFinding decls.now scope.now name.now key.now found missing nodes.old nodes.new) }
{
    let slot = slot_count(scope)?;
    let Some(table) = table(decls, name.as_slice())? else {
        unreachable!()
    };
    let Some(key) = value(alloc, decls, scope, key)? else {
        unreachable!()
    };
    let what = Change::Bind { slot, table };
    let next = found;
    let yes = put(nodes, scope, Node::Store { what, next })?;
    let test = Check::Scan { table, key };
    let no = Some(missing);
    let first = put(nodes, scope, Node::Branch { test, yes, no })?;
    Ok(first)
}

/// From which connection a `recv` takes: `None` for any.
fn named_chan(
    alloc: Global,
    decls: &[Decl],
    scope: &[Known],
    chan: &Chan,
) -> Result<Option<Val>, Memory>
    requires { IsChanNamed decls.now scope.now chan.now }
    ensures { IfOk result (IsChanFrom decls.now scope.now chan.now) }
{
    match chan {
        Chan::Bind(_) => Ok(None),
        Chan::From(named) => match conn(alloc, decls, scope, named)? {
            Some(val) => Ok(Some(val)),
            None => unreachable!(),
        },
    }
}

/// The slot that a `recv` binds to the connection, where it does.
fn bound_chan(scope: &[Known], chan: &Chan) -> Result<Option<u16>, Memory>
    ensures { IfOk result (λ slot. slot ≡ chan_slot scope.now chan.now) }
{
    match chan {
        Chan::Bind(_) => Ok(Some(slot_count(scope)?)),
        Chan::From(_) => Ok(None),
    }
}

/// The node of a `recv`, once those of its blocks are made.
pub fn take(
    alloc: Global,
    decls: &[Decl],
    nodes: &mut Nodes,
    scope: &[Known],
    named: &[Known],
    chan: &Chan,
    cases: Vec<TakeCase>,
    next: usize,
) -> Result<usize, Memory>
    requires chan { IsChanNamed decls.now scope.now chan.now }
    requires named { named.now ≡ scope.now ++ names_of_chan chan.now }
    ensures { IfOk result (PutsTaking decls.now scope.now chan.now cases.items next nodes.old nodes.new) }
{
    let from = named_chan(alloc, decls, scope, chan)?;
    let conn = bound_chan(scope, chan)?;
    let other = slot_count(named)?;
    let cases = List::from_vec(cases);
    put(
        nodes,
        scope,
        Node::Take {
            from,
            conn,
            cases,
            other,
            next,
        },
    )
}
