//! What may come next at a state.

ghost use Rattle.std.specs.Prelude.{◌≡◌, IfOk, Some};
ghost use Rattle.dual_step.specs.Next.{Allows, conn_named, expect_on, next_at, next_of, offer_on};
ghost use Rattle.dual_step.specs.State.{standing_of};
ghost use Rattle.dual_tree.specs.Dual.{mirrored, tree_of};
ghost use Rattle.itree_data.specs.Standing.{Standing};
ghost use Rattle.itree_data.specs.Step.{after_event};
ghost use Rattle.itree_data.specs.Value.{pieces_at};
ghost use Rattle.spec_model.specs.declared.event.ServerEvent.{ServerEvent};

use crate::silent::node_in;
use crate::state::State;
use crate::values::{number_at, pieces_at};
use dual_tree::dual::Dual;
use dual_tree::node::DualNode;
use itree_data::node::Val;
use spec_model::Memory;
use spec_model::list::{Bytes, joined};
use std::alloc::Global;

/// The kind of event that may come next.
#[derive(Debug, Drop)]
pub enum Next {
    /// A message is taken, from any connection or from the named one.
    Offer(Option<u16>),
    /// That message is sent on that connection.
    Expect(u16, Bytes),
    /// A text is picked.
    Fresh,
    /// A test says yes or no.
    Compare,
    /// One of so many arms is chosen.
    Split(usize),
    /// Nothing.
    Nothing,
}

/// The connection that a value names, where there is one.
fn conn_named(dual: &Dual, state: &State, named: &Val) -> Option<u16>
    ensures { result ≡ conn_named (tree_of dual.now) (standing_of state.now) named.now }
{
    let number = number_at(state, named)?;
    if number < u64::from(dual.shape().conns) {
        Some(number as u16)
    } else {
        None
    }
}

/// What may come next where a message is taken from a named connection.
fn next_from(dual: &Dual, state: &State, named: &Val) -> Next
    ensures { result ≡ offer_on (conn_named (tree_of dual.now) (standing_of state.now) named.now) }
{
    match conn_named(dual, state, named) {
        Some(conn) => Next::Offer(Some(conn)),
        None => Next::Nothing,
    }
}

/// What may come next where a message is sent.
fn next_sent(
    alloc: Global,
    dual: &Dual,
    state: &State,
    named: &Val,
    parts: &[Val],
) -> Result<Next, Memory>
    ensures { IfOk result (λ next. next
        ≡ expect_on (conn_named (tree_of dual.now) (standing_of state.now) named.now) (pieces_at (standing_of state.now) parts.now)) }
{
    let Some(conn) = conn_named(dual, state, named) else {
        return Ok(Next::Nothing);
    };
    match pieces_at(alloc, state, parts)? {
        None => Ok(Next::Nothing),
        Some(pieces) => Ok(Next::Expect(conn, joined(alloc, pieces.as_slice())?)),
    }
}

/// What may come next at a node.
fn next_at(alloc: Global, dual: &Dual, state: &State, node: &DualNode) -> Result<Next, Memory>
    ensures { IfOk result (λ next. next ≡ next_at (tree_of dual.now) (standing_of state.now) (mirrored node.now)) }
{
    match node {
        DualNode::Offer { from: None, .. } => Ok(Next::Offer(None)),
        DualNode::Offer {
            from: Some(named),
            ..
        } => Ok(next_from(dual, state, named)),
        DualNode::Expect { conn, parts, .. } => {
            next_sent(alloc, dual, state, conn, parts.as_slice())
        }
        DualNode::Fresh { .. } => Ok(Next::Fresh),
        DualNode::Compare { .. } => Ok(Next::Compare),
        DualNode::Split { arms } => Ok(Next::Split(arms.len())),
        DualNode::Store { .. } => Ok(Next::Nothing),
        DualNode::Back { .. } => Ok(Next::Nothing),
    }
}

/// What may come next: no other event is a step from here.
pub fn next_of(alloc: Global, dual: &Dual, state: &State) -> Result<Next, Memory>
    ensures next { IfOk result (λ next. next ≡ next_of (tree_of dual.now) (standing_of state.now)) }
    ensures only { IfOk result (λ next. (event : ServerEvent) (middle : Standing) → after_event (tree_of dual.now) (standing_of state.now) event ≡ Some middle
        → Allows next event) }
{
    match node_in(dual.nodes().as_slice(), state.node) {
        None => Ok(Next::Nothing),
        Some(node) => next_at(alloc, dual, state, node),
    }
}
