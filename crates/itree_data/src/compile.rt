//! How the nodes of a tree are made: from the back, so that each node knows the numbers of those that are next.

ghost use Rattle.std.specs.Prelude.{◌≡◌, IfOk, length, take};
ghost use Rattle.spec_model.specs.Config.{kind_of};
ghost use Rattle.itree_data.specs.Making.{AreArmsSound, AreCasesSound, AreSound, IsAllSound, MakesArms, MakesCases, MakesStmt, MakesStmts};

use crate::leaves::{ask, assign, choose, send};
use crate::lookups::{delete_pair, find_pair, put_pair, take};
use crate::node::{Node, TakeCase};
use crate::nodes::{Nodes, put, slot_count};
use crate::resolve::slotted;
use crate::scope::{behind, with_chan, with_local, with_pattern};
use spec_model::Memory;
use spec_model::list::List;
use spec_model::tree::{Block, Case, Decl, Kind, Stmt};
use spec_rules::names::{Known, ValueType};
use sqlite_items::Items;
use std::alloc::Global;

/// The nodes of the cases of a `recv`, the last one first. The second locals are those with the connection.
#[cycle(compile)]
fn cases(
    alloc: Global,
    decls: &[Decl],
    nodes: &mut Nodes,
    scope: &[Known],
    named: &[Known],
    cases: &Items<Case>,
    next: usize,
) -> Result<Vec<TakeCase>, Memory>
    requires begins { take (length scope.now) named.now ≡ scope.now }
    requires sound { AreCasesSound decls.now named.now cases.now }
    ensures { IfOk result (λ taken. MakesCases decls.now scope.now named.now cases.now next nodes.old nodes.new taken.items) }
{
    let cases = cases.as_slice();
    let mut taken = Vec::new(alloc);
    let mut left = cases.len();
    while left > 0 {
        left -= 1;
        let case = &cases[left];
        let inner = with_pattern(alloc, named, case.items.as_slice())?;
        let first = statements(
            alloc,
            decls,
            nodes,
            inner.as_slice(),
            &case.block.stmts,
            next,
        )?;
        let items = slotted(alloc, slot_count(named)?, case.items.as_slice())?;
        taken.push(TakeCase { items, next: first })?;
    }
    taken.reverse();
    Ok(taken)
}

/// The nodes of the arms of an `either`, the last one first.
#[cycle(compile)]
fn arms(
    alloc: Global,
    decls: &[Decl],
    nodes: &mut Nodes,
    scope: &[Known],
    arms: &Items<Block>,
    next: usize,
) -> Result<Vec<usize>, Memory>
    requires { AreArmsSound decls.now scope.now arms.now }
    ensures { IfOk result (λ targets. MakesArms decls.now scope.now arms.now next nodes.old nodes.new targets.items) }
{
    let arms = arms.as_slice();
    let mut targets = Vec::new(alloc);
    let mut left = arms.len();
    while left > 0 {
        left -= 1;
        let arm = &arms[left];
        targets.push(statements(alloc, decls, nodes, scope, &arm.stmts, next)?)?;
    }
    targets.reverse();
    Ok(targets)
}

/// The nodes of a statement; gives the number of the first.
#[cycle(compile)]
fn statement(
    alloc: Global,
    decls: &[Decl],
    nodes: &mut Nodes,
    scope: &[Known],
    stmt: &Stmt,
    next: usize,
) -> Result<usize, Memory>
    requires { IsAllSound decls.now scope.now (kind_of stmt.now) }
    ensures { IfOk result (MakesStmt decls.now scope.now stmt.now next nodes.old nodes.new) }
{
    match &stmt.kind {
        Kind::Recv {
            chan,
            cases,
            other,
            rest,
        } => {
            let named = with_chan(alloc, scope, chan)?;
            let named = named.as_slice();
            let inner = with_local(alloc, named, other, ValueType::Text)?;
            let last = statements(alloc, decls, nodes, inner.as_slice(), &rest.stmts, next)?;
            let taken = self::cases(alloc, decls, nodes, scope, named, cases, next)?;
            let first = take(alloc, decls, nodes, scope, named, chan, taken, last)?;
            Ok(first)
        }
        Kind::Send { conn, parts } => {
            let first = send(alloc, decls, nodes, scope, conn, parts.as_slice(), next)?;
            Ok(first)
        }
        Kind::Pick {
            name,
            len,
            alphabet,
        } => {
            let first = choose(decls, nodes, scope, name, *len, *alphabet, next)?;
            Ok(first)
        }
        Kind::Assign { name, left, tail } => {
            let first = assign(alloc, decls, nodes, scope, name, left, tail, next)?;
            Ok(first)
        }
        Kind::If { cond, yes, no } => {
            let fails = statements(alloc, decls, nodes, scope, &no.stmts, next)?;
            let holds = statements(alloc, decls, nodes, scope, &yes.stmts, next)?;
            let first = ask(alloc, decls, nodes, scope, cond, holds, Some(fails))?;
            Ok(first)
        }
        Kind::Either { arms } => {
            let targets = self::arms(alloc, decls, nodes, scope, arms, next)?;
            let arms = List::from_vec(targets);
            let first = put(nodes, scope, Node::Fork { arms })?;
            Ok(first)
        }
        Kind::Assume { cond } => {
            let first = ask(alloc, decls, nodes, scope, cond, next, None)?;
            Ok(first)
        }
        Kind::Put { table, key, value } => {
            let first = put_pair(alloc, decls, nodes, scope, table, key, value, next)?;
            Ok(first)
        }
        Kind::Lookup {
            table,
            key,
            name,
            found,
            missing,
        } => {
            let otherwise = statements(alloc, decls, nodes, scope, &missing.stmts, next)?;
            let inner = with_local(alloc, scope, name, ValueType::Text)?;
            let inside = statements(alloc, decls, nodes, inner.as_slice(), &found.stmts, next)?;
            let first = find_pair(alloc, decls, nodes, scope, table, key, inside, otherwise)?;
            Ok(first)
        }
        Kind::Delete { table, key } => {
            let first = delete_pair(alloc, decls, nodes, scope, table, key, next)?;
            Ok(first)
        }
    }
}

/// The nodes of statements that are done one behind the other, the last one first; gives the number of the first.
#[cycle(compile)]
pub fn statements(
    alloc: Global,
    decls: &[Decl],
    nodes: &mut Nodes,
    scope: &[Known],
    stmts: &Items<Stmt>,
    next: usize,
) -> Result<usize, Memory>
    requires { AreSound decls.now scope.now stmts.now }
    ensures { IfOk result (MakesStmts decls.now scope.now stmts.now next nodes.old nodes.new) }
{
    let stmts = stmts.as_slice();
    let mut first = next;
    let mut left = stmts.len();
    while left > 0 {
        left -= 1;
        let inner = behind(alloc, scope, &stmts[..left])?;
        first = statement(alloc, decls, nodes, inner.as_slice(), &stmts[left], first)?;
    }
    Ok(first)
}
