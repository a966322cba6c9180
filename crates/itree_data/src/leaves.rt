//! The nodes of statements that have no blocks.

ghost use Rattle.std.specs.Prelude.{IfOk};
ghost use Rattle.spec_model.specs.declared.tree.Kind.TheOpen as kinds;
ghost use Rattle.spec_rules.specs.Names.{values_of_cond};
ghost use Rattle.itree_data.specs.Leaves.{AreNamed, PutsCond};
ghost use Rattle.itree_data.specs.Making.{IsAllSound, PutsKind};

use crate::node::{Change, Check, Node};
use crate::nodes::{Nodes, put, slot_count};
use crate::resolve::{conn, register, tail_value, value, values};
use spec_model::Memory;
use spec_model::list::Bytes;
use spec_model::tree::{Alphabet, Cond, Decl, Expr, Sign};
use spec_rules::names::Known;
use std::alloc::Global;

/// The node of a send.
pub fn send(
    alloc: Global,
    decls: &[Decl],
    nodes: &mut Nodes,
    scope: &[Known],
    named: &Expr,
    parts: &[Expr],
    next: usize,
) -> Result<usize, Memory>
    requires { IsAllSound decls.now scope.now (kinds.Send named.now parts.now) }
    ensures { IfOk result (PutsKind decls.now scope.now (kinds.Send named.now parts.now) next nodes.old nodes.new) }
{
    let Some(conn) = conn(alloc, decls, scope, named)? else {
        unreachable!()
    };
    let Some(parts) = values(alloc, decls, scope, parts)? else {
        unreachable!()
    };
    put(nodes, scope, Node::Send { conn, parts, next })
}

/// The node of a pick.
pub fn choose(
    decls: &[Decl],
    nodes: &mut Nodes,
    scope: &[Known],
    name: &Bytes,
    len: u64,
    alphabet: Alphabet,
    next: usize,
) -> Result<usize, Memory>
    requires { IsAllSound decls.now scope.now (kinds.Pick name.now len alphabet) }
    ensures { IfOk result (PutsKind decls.now scope.now (kinds.Pick name.now len alphabet) next nodes.old nodes.new) }
{
    let slot = slot_count(scope)?;
    let Ok(len) = u8::try_from(len) else {
        unreachable!()
    };
    put(
        nodes,
        scope,
        Node::Choose {
            slot,
            len,
            alphabet,
            next,
        },
    )
}

/// The node of an assignment.
pub fn assign(
    alloc: Global,
    decls: &[Decl],
    nodes: &mut Nodes,
    scope: &[Known],
    name: &Bytes,
    left: &Expr,
    tail: &Option<(Sign, Expr)>,
    next: usize,
) -> Result<usize, Memory>
    requires { IsAllSound decls.now scope.now (kinds.Assign name.now left.now tail.now) }
    ensures { IfOk result (PutsKind decls.now scope.now (kinds.Assign name.now left.now tail.now) next nodes.old nodes.new) }
{
    let Some(register) = register(decls, name.as_slice())? else {
        unreachable!()
    };
    let Some(left) = value(alloc, decls, scope, left)? else {
        unreachable!()
    };
    let Some(tail) = tail_value(alloc, decls, scope, tail)? else {
        unreachable!()
    };
    let what = Change::Assign {
        register,
        left,
        tail,
    };
    put(nodes, scope, Node::Store { what, next })
}

/// A node that asks a condition.
pub fn ask(
    alloc: Global,
    decls: &[Decl],
    nodes: &mut Nodes,
    scope: &[Known],
    cond: &Cond,
    yes: usize,
    no: Option<usize>,
) -> Result<usize, Memory>
    requires { AreNamed decls.now scope.now (values_of_cond cond.now) }
    ensures { IfOk result (PutsCond decls.now scope.now cond.now yes no nodes.old nodes.new) }
{
    let Some(left) = value(alloc, decls, scope, &cond.left)? else {
        unreachable!()
    };
    let Some(right) = value(alloc, decls, scope, &cond.right)? else {
        unreachable!()
    };
    let test = Check::Cond {
        left,
        op: cond.op,
        right,
    };
    put(nodes, scope, Node::Branch { test, yes, no })
}
