//! What the generator sees of a specification: the templates of its messages, and the sites of its picks.

ghost use Rattle.std.specs.Prelude.{◌≡◌, ◌≤◌, ◌++◌, ◌∷◌, [], IfOk, OnOk};
ghost use Rattle.script_gen.specs.Plan.{plan_of};
ghost use Rattle.script_gen.specs.Ready.{IsReady, with_seen};
ghost use Rattle.script_gen.specs.Seen.{seen_in, seen_in_start};
ghost use Rattle.script_gen.specs.SeenStmts.{picks_behind, seen_at, seen_in_arms, seen_in_cases, templates_of_recv};

use crate::plan::{KnownPick, Plan, site_of};
use spec_model::Memory;
use spec_model::copy::{TryCopy, copy_of};
use spec_model::list::{Bytes, List};
use spec_model::tree::{Block, Case, HoleKind, Item, Kind, Stmt};
use spec_rules::checked::Checked;
use sqlite_items::Items;
use std::alloc::Global;

/// What a script of a specification and so many connections is made from.
pub fn plan_of(alloc: Global, spec: &Checked, conns: u16) -> Result<Plan, Memory>
    requires one_conn { 1 ≤ conns }
    requires conns_within { conns ≤ spec.now.shape.conns }
    ensures plan { IfOk result (λ plan. plan ≡ plan_of spec.now conns) }
    ensures ready { IfOk result IsReady }
{
    let spec = spec.spec();
    let mut plan = Plan {
        shape: spec.shape,
        conns,
        templates: List::new(alloc),
        sites: List::new(alloc),
    };
    see_start(alloc, &mut plan, &spec.start)?;
    let mut picks = Vec::new(alloc);
    see_block(alloc, &mut plan, &mut picks, &spec.body)?;
    Ok(plan)
}

/// Adds what is seen in `start`.
pub(crate) fn see_start(alloc: Global, plan: &mut Plan, start: &Option<Block>) -> Result<(), Memory>
    ensures { OnOk result (plan.new ≡ with_seen plan.old (seen_in_start start.now)) }
{
    match start {
        None => Ok(()),
        Some(block) => {
            let mut picks = Vec::new(alloc);
            see_block(alloc, plan, &mut picks, block)
        }
    }
}

/// Adds what is seen in a block, before which these picks are known.
#[cycle(see)]
pub(crate) fn see_block(
    alloc: Global,
    plan: &mut Plan,
    picks: &mut Vec<KnownPick>,
    block: &Block,
) -> Result<(), Memory>
    ensures seen { OnOk result (plan.new ≡ with_seen plan.old (seen_in block.now picks.old.items)) }
    ensures kept { OnOk result (picks.new.items ≡ picks.old.items) }
{
    let outer = picks.len();
    for stmt in block.stmts.as_slice() {
        see_stmt(alloc, plan, picks, stmt)?;
    }
    picks.truncate(outer);
    Ok(())
}

/// Adds what is seen of a statement and in it, and puts the pick that it makes known behind the others.
#[cycle(see)]
fn see_stmt(
    alloc: Global,
    plan: &mut Plan,
    picks: &mut Vec<KnownPick>,
    stmt: &Stmt,
) -> Result<(), Memory>
    ensures seen { OnOk result (plan.new ≡ with_seen plan.old (seen_at stmt.now picks.old.items)) }
    ensures known { OnOk result (picks.new.items ≡ picks.old.items ++ picks_behind stmt.now) }
{
    match &stmt.kind {
        Kind::Recv {
            cases,
            other,
            rest,
            ..
        } => {
            put_templates(alloc, &mut plan.templates, cases, other)?;
            see_cases(alloc, plan, picks, cases)?;
            see_block(alloc, plan, picks, rest)
        }
        Kind::Send { parts, .. } => plan.sites.push_some(site_of(picks, parts.as_slice())),
        Kind::Pick { name, len, .. } => put_pick(alloc, picks, name, *len),
        Kind::If { yes, no, .. } => {
            see_block(alloc, plan, picks, yes)?;
            see_block(alloc, plan, picks, no)
        }
        Kind::Either { arms } => see_arms(alloc, plan, picks, arms),
        Kind::Lookup { found, missing, .. } => {
            see_block(alloc, plan, picks, found)?;
            see_block(alloc, plan, picks, missing)
        }
        _ => Ok(()),
    }
}

/// Adds what is seen in the blocks of cases.
#[cycle(see)]
fn see_cases(
    alloc: Global,
    plan: &mut Plan,
    picks: &mut Vec<KnownPick>,
    cases: &Items<Case>,
) -> Result<(), Memory>
    ensures seen { OnOk result (plan.new ≡ with_seen plan.old (seen_in_cases cases.now picks.old.items)) }
    ensures kept { OnOk result (picks.new.items ≡ picks.old.items) }
{
    for case in cases.as_slice() {
        see_block(alloc, plan, picks, &case.block)?;
    }
    Ok(())
}

/// Adds what is seen in arms.
#[cycle(see)]
fn see_arms(
    alloc: Global,
    plan: &mut Plan,
    picks: &mut Vec<KnownPick>,
    arms: &Items<Block>,
) -> Result<(), Memory>
    ensures seen { OnOk result (plan.new ≡ with_seen plan.old (seen_in_arms arms.now picks.old.items)) }
    ensures kept { OnOk result (picks.new.items ≡ picks.old.items) }
{
    for arm in arms.as_slice() {
        see_block(alloc, plan, picks, arm)?;
    }
    Ok(())
}

/// Puts the templates of a `recv` at the end, in the order of its cases, that of `other` last.
fn put_templates(
    alloc: Global,
    templates: &mut List<List<Item>>,
    cases: &Items<Case>,
    other: &Bytes,
) -> Result<(), Memory>
    ensures { OnOk result (templates.new ≡ templates.old ++ templates_of_recv cases.now other.now) }
{
    for case in cases.as_slice() {
        templates.push(copy_of(alloc, case.items.as_slice())?)?;
    }
    let mut any = List::new(alloc);
    any.push(Item::Hole(other.copy(alloc)?, HoleKind::Rest))?;
    templates.push(any)
}

/// Puts a pick behind those that are known.
fn put_pick(alloc: Global, picks: &mut Vec<KnownPick>, name: &Bytes, len: u64) -> Result<(), Memory>
    ensures { OnOk result (picks.new.items ≡ picks.old.items ++ record { name = name.now; len = len } ∷ []) }
{
    let name = name.copy(alloc)?;
    picks.push(KnownPick { name, len })?;
    Ok(())
}
