//! What a tree stores.

ghost use Rattle.std.specs.Prelude.{◌≡◌, ◌∷◌, IfOk, option_and_then, option_map, remove, slice_get, take};
ghost use Rattle.std.specs.Option.{option_copied};
ghost use Rattle.spec_model.specs.Table.{most_pairs};
ghost use Rattle.dual_step.specs.State.{standing_of};
ghost use Rattle.itree_data.specs.Change.{after_change, next_has_key, with_table};
ghost use Rattle.itree_data.specs.Step.{after_store};

use crate::state::State;
use crate::taking::with_local;
use crate::values::{text_at, value_assigned};
use itree_data::node::{Change, Node, Val};
use spec_model::Memory;
use spec_model::config::{Pair, Value};
use spec_model::copy::{TryCopy, copy_of};
use spec_model::list::{Bytes, List};
use spec_model::tree::Sign;
use std::alloc::Global;

/// The pairs of a table, the newest first.
pub(crate) fn pairs_in(state: &State, table: u16) -> Option<&[Pair]>
    ensures { option_copied result ≡ slice_get state.now.tables table }
{
    let pairs = state.tables.as_slice().get(usize::from(table))?;
    Some(pairs.as_slice())
}

/// The next pair of a table that is to be compared, or the one that was found.
fn next_pair(state: &State, table: u16) -> Option<&Pair>
    ensures { option_copied result ≡ option_and_then (λ pairs. slice_get pairs state.now.compared) (slice_get state.now.tables table) }
{
    let pairs = pairs_in(state, table)?;
    pairs.get(state.compared)
}

/// Whether the key is that of the next pair of a table, or `None` where there is no such pair or key.
pub fn next_has_key(
    alloc: Global,
    state: &State,
    table: u16,
    key: &Val,
) -> Result<Option<bool>, Memory>
    ensures { IfOk result (λ has. has ≡ next_has_key (standing_of state.now) table key.now) }
{
    let Some(pair) = next_pair(state, table) else {
        return Ok(None);
    };
    let Some(wanted) = text_at(alloc, state, key)? else {
        return Ok(None);
    };
    Ok(Some(pair.key.as_slice() == wanted.as_slice()))
}

/// A register gets a value.
fn assigned(
    alloc: Global,
    state: &State,
    register: u16,
    left: &Val,
    tail: &Option<(Sign, Val)>,
) -> Result<Option<State>, Memory>
    ensures { IfOk result (λ after. option_map standing_of after ≡ after_change (standing_of state.now) (Change.Assign register left.now tail.now)) }
{
    let Some(value) = value_assigned(alloc, state, left, tail)? else {
        return Ok(None);
    };
    let mut after = state.copy(alloc)?;
    after.registers.set(usize::from(register), value);
    Ok(Some(after))
}

/// A slot is bound to the value of the pair that was found.
fn bound(alloc: Global, state: &State, slot: u16, table: u16) -> Result<Option<State>, Memory>
    ensures { IfOk result (λ after. option_map standing_of after ≡ after_change (standing_of state.now) (Change.Bind slot table)) }
{
    let Some(pair) = next_pair(state, table) else {
        return Ok(None);
    };
    let value = Value::Text(pair.value.copy(alloc)?);
    let mut after = state.copy(alloc)?;
    after.locals = with_local(after.locals, slot, value)?;
    Ok(Some(after))
}

/// The state with these pairs in that table.
fn with_table(alloc: Global, state: &State, table: u16, pairs: List<Pair>) -> Result<State, Memory>
    ensures { IfOk result (λ after. standing_of after ≡ with_table (standing_of state.now) table pairs) }
{
    let mut after = state.copy(alloc)?;
    after.tables.set(usize::from(table), pairs);
    Ok(after)
}

/// The pair that was found gets a new value.
fn renewed(alloc: Global, state: &State, table: u16, value: &Val) -> Result<Option<State>, Memory>
    ensures { IfOk result (λ after. option_map standing_of after ≡ after_change (standing_of state.now) (Change.Renew table value.now)) }
{
    let Some(pairs) = pairs_in(state, table) else {
        return Ok(None);
    };
    let Some(pair) = pairs.get(state.compared) else {
        return Ok(None);
    };
    let Some(value) = text_at(alloc, state, value)? else {
        return Ok(None);
    };
    let key = pair.key.copy(alloc)?;
    let mut pairs = copy_of(alloc, pairs)?;
    pairs.set(state.compared, Pair { key, value });
    let after = with_table(alloc, state, table, pairs)?;
    Ok(Some(after))
}

/// The pairs with a new one at the front, at most 256 of them.
fn with_new_pair(
    alloc: Global,
    pairs: &[Pair],
    key: Bytes,
    value: Bytes,
) -> Result<List<Pair>, Memory>
    ensures { IfOk result (λ after. after ≡ take most_pairs (record { key = key; value = value } ∷ pairs.now)) }
{
    let mut after = copy_of(alloc, pairs)?.into_vec();
    after.insert(0, Pair { key, value })?;
    after.truncate(256);
    Ok(List::from_vec(after))
}

/// A pair is put to the front of a table.
fn added(
    alloc: Global,
    state: &State,
    table: u16,
    key: &Val,
    value: &Val,
) -> Result<Option<State>, Memory>
    ensures { IfOk result (λ after. option_map standing_of after ≡ after_change (standing_of state.now) (Change.Add table key.now value.now)) }
{
    let Some(pairs) = pairs_in(state, table) else {
        return Ok(None);
    };
    let Some(key) = text_at(alloc, state, key)? else {
        return Ok(None);
    };
    let Some(value) = text_at(alloc, state, value)? else {
        return Ok(None);
    };
    let pairs = with_new_pair(alloc, pairs, key, value)?;
    let after = with_table(alloc, state, table, pairs)?;
    Ok(Some(after))
}

/// The pairs without the one of that number, if there is one.
fn without(alloc: Global, pairs: &[Pair], number: usize) -> Result<List<Pair>, Memory>
    ensures { IfOk result (λ after. after ≡ remove pairs.now number) }
{
    let mut after = copy_of(alloc, pairs)?.into_vec();
    if number < after.len() {
        after.remove(number);
    }
    Ok(List::from_vec(after))
}

/// The pair that was found is removed.
fn removed(alloc: Global, state: &State, table: u16) -> Result<Option<State>, Memory>
    ensures { IfOk result (λ after. option_map standing_of after ≡ after_change (standing_of state.now) (Change.Remove table)) }
{
    let Some(pairs) = pairs_in(state, table) else {
        return Ok(None);
    };
    let pairs = without(alloc, pairs, state.compared)?;
    let after = with_table(alloc, state, table, pairs)?;
    Ok(Some(after))
}

/// What a change leaves, or `None` where what it stores is stored nowhere.
pub fn after_change(alloc: Global, state: &State, what: &Change) -> Result<Option<State>, Memory>
    ensures { IfOk result (λ after. option_map standing_of after ≡ after_change (standing_of state.now) what.now) }
{
    match what {
        Change::Assign {
            register,
            left,
            tail,
        } => assigned(alloc, state, *register, left, tail),
        Change::Bind { slot, table } => bound(alloc, state, *slot, *table),
        Change::Renew { table, value } => renewed(alloc, state, *table, value),
        Change::Add { table, key, value } => added(alloc, state, *table, key, value),
        Change::Remove { table } => removed(alloc, state, *table),
    }
}

/// What a change leaves, at the next node.
pub fn after_store(
    alloc: Global,
    state: &State,
    what: &Change,
    next: usize,
) -> Result<Option<State>, Memory>
    ensures { IfOk result (λ after. option_map standing_of after ≡ after_store (standing_of state.now) (Node.Store what.now next)) }
{
    let Some(after) = after_change(alloc, state, what)? else {
        return Ok(None);
    };
    Ok(Some(after.at_node(next)))
}
