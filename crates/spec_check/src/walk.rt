//! What is bad in statements, and in the statements in them.

ghost use Rattle.std.specs.Prelude.{◌≡◌, ◌++◌, IfOk, List, OnOk, map};
ghost use Rattle.spec_model.specs.declared.tree.Kind.{out-Kind};
ghost use Rattle.spec_model.specs.declared.tree.Stmt.{Stmt};
ghost use Rattle.spec_model.specs.Config.{stmts_of};
ghost use Rattle.spec_rules.specs.Place.{blocks_of, without_names};
ghost use Rattle.spec_check.specs.Least.{IsFirst};
ghost use Rattle.spec_check.specs.Stmts.{IsBadAt, IsBadIn, IsBadInBlocks, blocks_of_cases};

use crate::found::{Found, earlier};
use crate::known::{case_names, found_names, other_names};
use crate::statement::{Rules, own_fault};
use spec_model::Memory;
use spec_model::tree::{Block, Case, Chan, Kind, Stmt};
use spec_rules::names::{Known, bound_behind};
use sqlite_items::Items;
use std::alloc::Global;

/// The first fault in a block in which these names are bound besides.
#[cycle(walk)]
pub fn block_fault(
    alloc: Global,
    rules: Rules,
    known: &mut Vec<Known>,
    mut bound: Vec<Known>,
    block: &Block,
) -> Result<Option<Found>, Memory>
    ensures first { IfOk result (λ found. (behind : List Stmt) → IsFirst (IsBadIn rules (known.old.items ++ bound.items) (stmts_of block.now) behind) found) }
    ensures kept { OnOk result (known.new.items ≡ known.old.items) }
{
    let outer = known.len();
    known.append(&mut bound)?;
    let mut found = None;
    for stmt in block.stmts.as_slice() {
        let here = stmt_fault(alloc, rules, known, stmt)?;
        found = earlier(found, here);
        let mut behind = bound_behind(alloc, &stmt.kind)?;
        known.append(&mut behind)?;
    }
    known.truncate(outer);
    Ok(found)
}

/// The first fault at a statement or in it.
#[cycle(walk)]
fn stmt_fault(
    alloc: Global,
    rules: Rules,
    known: &mut Vec<Known>,
    stmt: &Stmt,
) -> Result<Option<Found>, Memory>
    ensures first { IfOk result (λ found. (behind : List Stmt) → IsFirst (IsBadAt rules known.old.items stmt.now behind) found) }
    ensures kept { OnOk result (known.new.items ≡ known.old.items) }
{
    let own = own_fault(alloc, rules, known.as_slice(), stmt)?;
    let inner = blocks_fault(alloc, rules, known, &stmt.kind)?;
    Ok(earlier(own, inner))
}

/// The first fault in the blocks of a statement.
#[cycle(walk)]
fn blocks_fault(
    alloc: Global,
    rules: Rules,
    known: &mut Vec<Known>,
    kind: &Kind,
) -> Result<Option<Found>, Memory>
    ensures first { IfOk result (λ found. (behind : List Stmt) → IsFirst (IsBadInBlocks rules known.old.items (blocks_of (out-Kind kind.now)) behind) found) }
    ensures kept { OnOk result (known.new.items ≡ known.old.items) }
{
    match kind {
        Kind::Recv {
            chan,
            cases,
            other,
            rest,
        } => {
            let in_cases = cases_fault(alloc, rules, known, chan, cases)?;
            let bound = other_names(alloc, chan, other)?;
            let in_rest = block_fault(alloc, rules, known, bound, rest)?;
            Ok(earlier(in_cases, in_rest))
        }
        Kind::If { yes, no, .. } => {
            let in_yes = block_fault(alloc, rules, known, Vec::new(alloc), yes)?;
            let in_no = block_fault(alloc, rules, known, Vec::new(alloc), no)?;
            Ok(earlier(in_yes, in_no))
        }
        Kind::Either { arms } => arms_fault(alloc, rules, known, arms),
        Kind::Lookup {
            name,
            found,
            missing,
            ..
        } => {
            let bound = found_names(alloc, name)?;
            let in_found = block_fault(alloc, rules, known, bound, found)?;
            let in_missing = block_fault(alloc, rules, known, Vec::new(alloc), missing)?;
            Ok(earlier(in_found, in_missing))
        }
        _ => Ok(None),
    }
}

/// The first fault in the cases of a `recv`.
#[cycle(walk)]
fn cases_fault(
    alloc: Global,
    rules: Rules,
    known: &mut Vec<Known>,
    chan: &Chan,
    cases: &Items<Case>,
) -> Result<Option<Found>, Memory>
    ensures first { IfOk result (λ found. (behind : List Stmt) → IsFirst (IsBadInBlocks rules known.old.items (blocks_of_cases chan.now cases.now) behind) found) }
    ensures kept { OnOk result (known.new.items ≡ known.old.items) }
{
    let mut found = None;
    for case in cases.as_slice() {
        let bound = case_names(alloc, chan, case.items.as_slice())?;
        let here = block_fault(alloc, rules, known, bound, &case.block)?;
        found = earlier(found, here);
    }
    Ok(found)
}

/// The first fault in the arms of an `either`.
#[cycle(walk)]
fn arms_fault(
    alloc: Global,
    rules: Rules,
    known: &mut Vec<Known>,
    arms: &Items<Block>,
) -> Result<Option<Found>, Memory>
    ensures first { IfOk result (λ found. (behind : List Stmt) → IsFirst (IsBadInBlocks rules known.old.items (map without_names arms.now) behind) found) }
    ensures kept { OnOk result (known.new.items ≡ known.old.items) }
{
    let mut found = None;
    for arm in arms.as_slice() {
        let here = block_fault(alloc, rules, known, Vec::new(alloc), arm)?;
        found = earlier(found, here);
    }
    Ok(found)
}
