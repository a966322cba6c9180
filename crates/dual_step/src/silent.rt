//! Silent work.

ghost use Rattle.std.specs.Prelude.{◌≡◌, ◌<◌, IfOk, IfSome, map, option_map, slice_get};
ghost use Rattle.std.specs.Option.{option_copied};
ghost use Rattle.dual_step.specs.State.{standing_of};
ghost use Rattle.dual_step.specs.Left.{work_left};
ghost use Rattle.dual_tree.specs.Dual.{mirrored, tree_of};
ghost use Rattle.itree_data.specs.Run.{TreeSettles};
ghost use Rattle.itree_data.specs.Standing.{scope_at, within_scope};
ghost use Rattle.itree_data.specs.Step.{after_last_pair, after_silent_node, after_silent_work};

use crate::changes::{after_store, pairs_in};
use crate::state::State;
use dual_tree::dual::Dual;
use dual_tree::node::DualNode;
use itree_data::node::{Change, Check, Node, Val};
use spec_model::Memory;
use std::alloc::Global;

/// The node of that number.
pub(crate) fn node_in(nodes: &[DualNode], number: usize) -> Option<&DualNode>
    ensures { option_map mirrored (option_copied result) ≡ slice_get (map mirrored nodes.now) number }
{
    nodes.get(number)
}

/// Behind the last pair a new pair is added, where that is what is next.
fn after_last_pair(alloc: Global, state: State, node: &DualNode) -> Result<Option<State>, Memory>
    ensures { IfOk result (λ after. option_map standing_of after ≡ after_last_pair (standing_of state) (mirrored node.now)) }
{
    match node {
        DualNode::Store { what, next } => match what {
            Change::Add { .. } => after_store(alloc, &state, what, *next),
            _ => Ok(Some(state)),
        },
        _ => Ok(Some(state)),
    }
}

/// The end of a look-up that has passed all pairs.
fn after_look_up(
    alloc: Global,
    dual: &Dual,
    state: &State,
    table: u16,
    missing: Option<usize>,
) -> Result<Option<State>, Memory>
    ensures { IfOk result (λ after. option_map standing_of after ≡ after_silent_node (tree_of dual.now) (standing_of state.now) (Node.Branch (Check.Scan table (Val.Num 0)) 0 missing)) }
{
    let Some(pairs) = pairs_in(state, table) else {
        return Ok(None);
    };
    let Some(missing) = missing else {
        return Ok(None);
    };
    let Some(node) = node_in(dual.nodes().as_slice(), missing) else {
        return Ok(None);
    };
    if state.compared != pairs.len() {
        return Ok(None);
    }
    after_last_pair(alloc, state.copy(alloc)?.at_node(missing), node)
}

/// The silent work of a node, or `None` where it has none.
fn after_silent_node(
    alloc: Global,
    dual: &Dual,
    state: &State,
    node: &DualNode,
) -> Result<Option<State>, Memory>
    ensures { IfOk result (λ after. option_map standing_of after ≡ after_silent_node (tree_of dual.now) (standing_of state.now) (mirrored node.now)) }
{
    match node {
        DualNode::Store { what, next } => after_store(alloc, state, what, *next),
        DualNode::Back { next } => Ok(Some(state.copy(alloc)?.at_node(*next))),
        DualNode::Compare { test, yes: _, no } => match test {
            Check::Scan { table, key: _ } => after_look_up(alloc, dual, state, *table, *no),
            Check::Cond { .. } => Ok(None),
        },
        _ => Ok(None),
    }
}

/// One piece of silent work, or `None` where none is to be done. Each piece leaves less of it.
fn after_silent_work(alloc: Global, dual: &Dual, state: &State) -> Result<Option<State>, Memory>
    ensures value { IfOk result (λ after. option_map standing_of after ≡ after_silent_work (tree_of dual.now) (standing_of state.now)) }
    ensures falls { IfOk result (λ after. IfSome after (λ next. work_left (tree_of dual.now) (standing_of next) < work_left (tree_of dual.now) (standing_of state.now))) }
{
    match node_in(dual.nodes().as_slice(), state.node) {
        None => Ok(None),
        Some(node) => after_silent_node(alloc, dual, state, node),
    }
}

/// The number of slots in scope at a node.
fn scope_at(dual: &Dual, node: usize) -> u16
    ensures { result ≡ scope_at (tree_of dual.now) node }
{
    match dual.scopes().as_slice().get(node) {
        None => 0,
        Some(scope) => *scope,
    }
}

/// The state in which what is not in scope is forgotten.
fn within_scope(dual: &Dual, mut state: State) -> State
    ensures { standing_of result ≡ within_scope (tree_of dual.now) (standing_of state) }
{
    let scope = scope_at(dual, state.node);
    state.locals.truncate(usize::from(scope));
    state
}

/// The state after all silent work, in which what is not in scope is forgotten.
pub fn settled(alloc: Global, dual: &Dual, state: State) -> Result<State, Memory>
    ensures { IfOk result (λ after. TreeSettles (tree_of dual.now) (standing_of state) (standing_of after)) }
{
    let mut now = state;
    while let Some(next) = after_silent_work(alloc, dual, &now)? {
        now = next;
    }
    Ok(within_scope(dual, now))
}
