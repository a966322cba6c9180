//! How many slots a tree needs.

ghost use Rattle.std.specs.Prelude.{◌<◌, ◌≤◌, IfOk};
ghost use Rattle.std.specs.List.{AllByRecursion};
ghost use Rattle.itree_data.specs.Slots.{BindsBelow, IsCaseBelow, IsConnBelow, IsPartBelow};

use crate::node::{Change, Node, Slotted, TakeCase};
use crate::resolve::slot_behind;
use spec_model::Memory;

/// The greatest of the counts.
fn greatest(counts: &[u16]) -> u16
    ensures { AllByRecursion (λ count. count ≤ result) counts.now }
{
    let mut greatest = 0;
    for count in counts {
        if *count > greatest {
            greatest = *count;
        }
    }
    greatest
}

/// The count, or where the slot is not below it, one more than the slot.
fn with_slot(count: u16, slot: u16) -> Result<u16, Memory>
    ensures { IfOk result (λ more. (count ≤ more) × (slot < more)) }
{
    if slot < count {
        Ok(count)
    } else {
        slot_behind(slot)
    }
}

/// The same for a slot that may be missing.
fn with_conn(count: u16, conn: &Option<u16>) -> Result<u16, Memory>
    ensures { IfOk result (λ more. (count ≤ more) × IsConnBelow more conn.now) }
{
    match conn {
        Some(slot) => with_slot(count, *slot),
        None => Ok(count),
    }
}

/// The same for the slots that a pattern binds.
fn with_pattern(least: u16, items: &[Slotted]) -> Result<u16, Memory>
    ensures { IfOk result (λ more. (least ≤ more) × AllByRecursion (IsPartBelow more) items.now) }
{
    let mut count = least;
    for item in items {
        if let Slotted::Hole(slot, _) = item {
            count = with_slot(count, *slot)?;
        }
    }
    Ok(count)
}

/// The same for the slots that the patterns of cases bind.
fn with_cases(least: u16, cases: &[TakeCase]) -> Result<u16, Memory>
    ensures { IfOk result (λ more. (least ≤ more) × AllByRecursion (IsCaseBelow more) cases.now) }
{
    let mut count = least;
    for case in cases {
        count = with_pattern(count, case.items.as_slice())?;
    }
    Ok(count)
}

/// The same for the slots that a node binds.
fn with_node(count: u16, node: &Node) -> Result<u16, Memory>
    ensures { IfOk result (λ more. (count ≤ more) × BindsBelow more node.now) }
{
    match node {
        Node::Take {
            from: _,
            conn,
            cases,
            other,
            next: _,
        } => {
            let count = with_conn(count, conn)?;
            let count = with_cases(count, cases.as_slice())?;
            with_slot(count, *other)
        }
        Node::Choose {
            slot,
            len: _,
            alphabet: _,
            next: _,
        } => with_slot(count, *slot),
        Node::Store {
            what: Change::Bind { slot, table: _ },
            next: _,
        } => with_slot(count, *slot),
        _ => Ok(count),
    }
}

/// At least the number of slots in scope at each node, and more than each slot that a node binds.
pub fn slots_needed(scopes: &[u16], nodes: &[Node]) -> Result<u16, Memory>
    ensures in_scope { IfOk result (λ slots. AllByRecursion (λ count. count ≤ slots) scopes.now) }
    ensures bound { IfOk result (λ slots. AllByRecursion (BindsBelow slots) nodes.now) }
{
    let mut slots = greatest(scopes);
    for node in nodes {
        slots = with_node(slots, node)?;
    }
    Ok(slots)
}
