//! What events leave, before the silent work.

ghost use Rattle.std.specs.Prelude.{◌≡◌, IfOk, option_map, slice_get, true};
ghost use Rattle.dual_step.specs.Events.{pairs_passed};
ghost use Rattle.dual_step.specs.State.{standing_of};
ghost use Rattle.dual_tree.specs.Dual.{mirrored, tree_of};
ghost use Rattle.itree_data.specs.declared.node.Check.TheVariants as checks;
ghost use Rattle.itree_data.specs.declared.node.Node.TheVariants as nodes;
ghost use Rattle.itree_data.specs.Standing.{at_node};
ghost use Rattle.itree_data.specs.Step.{after_event, after_node, after_pair, after_sending, after_store, side_of, takes_from};
ghost use Rattle.spec_model.specs.declared.event.ServerEvent.TheVariants as shown;

use crate::changes::{after_store, next_has_key};
use crate::state::{State, copy_of_tables};
use crate::taking::{Entry, case_taken, with_conn, with_local};
use crate::values::{number_at, pieces_at, truth_at};
use dual_tree::dual::Dual;
use dual_tree::node::DualNode;
use itree_data::node::{Check, TakeCase, Val};
use spec_model::Memory;
use spec_model::config::Value;
use spec_model::copy::copy_of;
use spec_model::event::ServerEvent;
use spec_model::list::{Bytes, List, joined, push_at};
use spec_model::pick::may_be_picked;
use spec_model::tree::{Alphabet, Op};
use std::alloc::Global;

/// The state at another node, where nothing is compared yet, with these locals.
fn at_node_with(
    alloc: Global,
    state: &State,
    node: usize,
    locals: List<Value>,
) -> Result<State, Memory>
    ensures { IfOk result (λ after. standing_of after ≡ record (at_node (standing_of state.now) node) { locals = locals }) }
{
    Ok(State {
        node,
        compared: 0,
        registers: copy_of(alloc, state.registers.as_slice())?,
        tables: copy_of_tables(alloc, state.tables.as_slice())?,
        locals,
        pending: copy_of(alloc, state.pending.as_slice())?,
    })
}

/// Whether a message may be taken from this connection: from any, or from the named one.
fn takes_from(state: &State, from: &Option<Val>, conn: u16) -> Option<bool>
    ensures { result ≡ takes_from (standing_of state.now) from.now conn }
{
    match from {
        None => Some(true),
        Some(named) => {
            let number = number_at(state, named)?;
            Some(number == u64::from(conn))
        }
    }
}

/// What taking a message leaves.
fn after_taking(
    alloc: Global,
    dual: &Dual,
    state: &State,
    from: &Option<Val>,
    bound: Option<u16>,
    cases: &[TakeCase],
    other: u16,
    next: usize,
    conn: u16,
    message: &Bytes,
) -> Result<Option<State>, Memory>
    ensures { IfOk result (λ after. option_map standing_of after
        ≡ after_node (tree_of dual.now) (standing_of state.now) (nodes.Take from.now bound cases.now other next) (shown.Take conn message.now)) }
{
    match takes_from(state, from, conn) {
        Some(true) if dual.shape().may_pass(conn, message.as_slice()) => {
            let locals = with_conn(alloc, state.locals.as_slice(), bound, conn)?;
            let entry = case_taken(alloc, locals.as_slice(), cases, other, next, message)?;
            let Entry { next, locals } = entry;
            Ok(Some(at_node_with(alloc, state, next, locals)?))
        }
        _ => Ok(None),
    }
}

/// The state after a message is sent.
fn after_sending(
    alloc: Global,
    state: &State,
    conn: u16,
    pieces: List<Bytes>,
    next: usize,
) -> Result<State, Memory>
    ensures { IfOk result (λ after. standing_of after ≡ after_sending (standing_of state.now) conn pieces next) }
{
    let mut after = state.copy(alloc)?.at_node(next);
    push_at(&mut after.pending, usize::from(conn), pieces)?;
    Ok(after)
}

/// What sending a message leaves.
fn after_send(
    alloc: Global,
    dual: &Dual,
    state: &State,
    named: &Val,
    parts: &[Val],
    next: usize,
    conn: u16,
    message: &Bytes,
) -> Result<Option<State>, Memory>
    ensures { IfOk result (λ after. option_map standing_of after
        ≡ after_node (tree_of dual.now) (standing_of state.now) (nodes.Send named.now parts.now next) (shown.Send conn message.now)) }
{
    let Some(number) = number_at(state, named) else {
        return Ok(None);
    };
    let Some(pieces) = pieces_at(alloc, state, parts)? else {
        return Ok(None);
    };
    let text = joined(alloc, pieces.as_slice())?;
    if number == u64::from(conn)
        && message.as_slice() == text.as_slice()
        && dual.shape().may_pass(conn, message.as_slice())
    {
        Ok(Some(after_sending(alloc, state, conn, pieces, next)?))
    } else {
        Ok(None)
    }
}

/// What picking a text leaves.
fn after_pick(
    alloc: Global,
    dual: &Dual,
    state: &State,
    slot: u16,
    len: u8,
    alphabet: Alphabet,
    next: usize,
    text: &Bytes,
) -> Result<Option<State>, Memory>
    ensures { IfOk result (λ after. option_map standing_of after
        ≡ after_node (tree_of dual.now) (standing_of state.now) (nodes.Choose slot len alphabet next) (shown.Pick text.now)) }
{
    let framing = dual.shape().framing;
    if !may_be_picked(framing, u64::from(len), alphabet, text.as_slice()) {
        return Ok(None);
    }
    let locals = copy_of(alloc, state.locals.as_slice())?;
    let locals = with_local(locals, slot, Value::Text(text.copy(alloc)?))?;
    Ok(Some(at_node_with(alloc, state, next, locals)?))
}

/// What choosing an arm leaves.
fn after_arm(
    alloc: Global,
    state: &State,
    arms: &[usize],
    arm: u16,
) -> Result<Option<State>, Memory>
    ensures { IfOk result (λ after. option_map standing_of after ≡ option_map (at_node (standing_of state.now)) (slice_get arms.now arm)) }
{
    match arms.get(usize::from(arm)) {
        None => Ok(None),
        Some(node) => Ok(Some(state.copy(alloc)?.at_node(*node))),
    }
}

/// The node at which a test that says so goes on.
fn side_of(outcome: bool, holds: usize, fails: Option<usize>) -> Option<usize>
    ensures { result ≡ side_of outcome holds fails }
{
    if outcome { Some(holds) } else { fails }
}

/// What a test of a condition leaves.
fn after_condition(
    alloc: Global,
    dual: &Dual,
    state: &State,
    left: &Val,
    op: Op,
    right: &Val,
    holds: usize,
    fails: Option<usize>,
    outcome: bool,
) -> Result<Option<State>, Memory>
    ensures { IfOk result (λ after. option_map standing_of after
        ≡ after_node (tree_of dual.now) (standing_of state.now) (nodes.Branch (checks.Cond left.now op right.now) holds fails) (shown.Test outcome)) }
{
    match truth_at(alloc, state, left, op, right)? {
        Some(truth) if truth == outcome => match side_of(outcome, holds, fails) {
            None => Ok(None),
            Some(node) => Ok(Some(state.copy(alloc)?.at_node(node))),
        },
        _ => Ok(None),
    }
}

/// What a change leaves that stands behind an equal pair.
fn after_found(alloc: Global, state: &State, node: &DualNode) -> Result<Option<State>, Memory>
    ensures { IfOk result (λ after. option_map standing_of after ≡ after_store (standing_of state.now) (mirrored node.now)) }
{
    match node {
        DualNode::Store { what, next } => after_store(alloc, state, what, *next),
        _ => Ok(None),
    }
}

/// The number of pairs compared once the next pair of a table is passed, where there is one.
fn pairs_passed(state: &State, table: u16) -> Option<usize>
    ensures { result ≡ pairs_passed (standing_of state.now) table }
{
    let pairs = state.tables.as_slice().get(usize::from(table))?;
    if state.compared < pairs.len() {
        Some(state.compared + 1)
    } else {
        None
    }
}

/// What an equal pair leaves: the change that stands behind it.
fn after_equal_pair(
    alloc: Global,
    dual: &Dual,
    state: &State,
    holds: usize,
) -> Result<Option<State>, Memory>
    ensures { IfOk result (λ after. option_map standing_of after ≡ after_pair (tree_of dual.now) (standing_of state.now) holds true) }
{
    match dual.nodes().as_slice().get(holds) {
        None => Ok(None),
        Some(node) => after_found(alloc, state, node),
    }
}

/// What a pair leaves that is not equal: it is passed.
fn after_other_pair(alloc: Global, state: &State, table: u16) -> Result<Option<State>, Memory>
    ensures { IfOk result (λ after. option_map standing_of after
        ≡ option_map (λ compared. record (standing_of state.now) { compared = compared }) (pairs_passed (standing_of state.now) table)) }
{
    let Some(compared) = pairs_passed(state, table) else {
        return Ok(None);
    };
    let mut after = state.copy(alloc)?;
    after.compared = compared;
    Ok(Some(after))
}

/// What a test at a look-up leaves.
fn after_comparison(
    alloc: Global,
    dual: &Dual,
    state: &State,
    table: u16,
    key: &Val,
    holds: usize,
    fails: Option<usize>,
    outcome: bool,
) -> Result<Option<State>, Memory>
    ensures { IfOk result (λ after. option_map standing_of after
        ≡ after_node (tree_of dual.now) (standing_of state.now) (nodes.Branch (checks.Scan table key.now) holds fails) (shown.Test outcome)) }
{
    match next_has_key(alloc, state, table, key)? {
        Some(true) if outcome => after_equal_pair(alloc, dual, state, holds),
        Some(false) if !outcome => after_other_pair(alloc, state, table),
        _ => Ok(None),
    }
}

/// What a test leaves.
fn after_test(
    alloc: Global,
    dual: &Dual,
    state: &State,
    test: &Check,
    holds: usize,
    fails: Option<usize>,
    outcome: bool,
) -> Result<Option<State>, Memory>
    ensures { IfOk result (λ after. option_map standing_of after
        ≡ after_node (tree_of dual.now) (standing_of state.now) (nodes.Branch test.now holds fails) (shown.Test outcome)) }
{
    match test {
        Check::Cond { left, op, right } => after_condition(
            alloc, dual, state, left, *op, right, holds, fails, outcome,
        ),
        Check::Scan { table, key } => after_comparison(
            alloc, dual, state, *table, key, holds, fails, outcome,
        ),
    }
}

/// What an event of a node leaves.
fn after_node(
    alloc: Global,
    dual: &Dual,
    state: &State,
    node: &DualNode,
    event: &ServerEvent,
) -> Result<Option<State>, Memory>
    ensures { IfOk result (λ after. option_map standing_of after ≡ after_node (tree_of dual.now) (standing_of state.now) (mirrored node.now) event.now) }
{
    match (node, event) {
        (
            DualNode::Offer {
                from,
                conn: bound,
                cases,
                other,
                next,
            },
            ServerEvent::Take(conn, message),
        ) => {
            let cases = cases.as_slice();
            after_taking(
                alloc, dual, state, from, *bound, cases, *other, *next, *conn, message,
            )
        }
        (
            DualNode::Expect {
                conn: named,
                parts,
                next,
            },
            ServerEvent::Send(conn, message),
        ) => {
            let parts = parts.as_slice();
            after_send(alloc, dual, state, named, parts, *next, *conn, message)
        }
        (
            DualNode::Fresh {
                slot,
                len,
                alphabet,
                next,
            },
            ServerEvent::Pick(text),
        ) => after_pick(alloc, dual, state, *slot, *len, *alphabet, *next, text),
        (DualNode::Split { arms }, ServerEvent::Arm(arm)) => {
            after_arm(alloc, state, arms.as_slice(), *arm)
        }
        (DualNode::Compare { test, yes, no }, ServerEvent::Test(outcome)) => {
            after_test(alloc, dual, state, test, *yes, *no, *outcome)
        }
        _ => Ok(None),
    }
}

/// The state that an event leaves, before the silent work, or `None` where it is no step from here.
pub fn after_event(
    alloc: Global,
    dual: &Dual,
    state: &State,
    event: &ServerEvent,
) -> Result<Option<State>, Memory>
    ensures { IfOk result (λ after. option_map standing_of after ≡ after_event (tree_of dual.now) (standing_of state.now) event.now) }
{
    match dual.nodes().as_slice().get(state.node) {
        None => Ok(None),
        Some(node) => after_node(alloc, dual, state, node, event),
    }
}
