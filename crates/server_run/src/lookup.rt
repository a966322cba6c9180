//! Look-ups in tables.

ghost use Rattle.std.specs.Prelude.{◌≡◌, ◌-◌, ◌^◌, ◌<◌, ◌∷◌, IfOk, OnSome, option_map, remove, take};
ghost use Rattle.std.specs.Option.{option_copied};
ghost use Rattle.spec_model.specs.Table.{after_hit, after_miss, key_is_at, looked_up, most_pairs, pairs_in};
ghost use Rattle.server_run.specs.State.{config_of};
ghost use Rattle.spec_model.specs.declared.tree.Kind.{out-Kind};
ghost use Rattle.spec_model.specs.declared.tree.Kind.TheOpen as kinds;

use crate::parts::{bound_to, entered, with_pairs, with_rest};
use crate::shared::Shared;
use crate::state::State;
use crate::values::text_of;
use spec_model::Memory;
use spec_model::config::{Pair, Table, Task, Value};
use spec_model::copy::{TryCopy, copy_of};
use spec_model::list::{Bytes, List};
use spec_model::tree::{Block, Expr, Kind};
use std::alloc::Global;

/// A table's pairs, the newest first.
pub fn pairs_in<'a>(state: &'a State, name: &[u8]) -> Option<&'a [Pair]>
    ensures { option_copied result ≡ pairs_in (config_of state.now) name.now }
{
    let tables = state.tables.as_slice();
    let table = tables
        .iter()
        .find(|table| table.get().name.as_slice() == name)?;
    Some(table.get().pairs.as_slice())
}

/// The table in which a statement looks a key up, and the key.
pub fn looked_up(kind: &Kind) -> Option<(&[u8], &Expr)>
    ensures { option_map (λ p. (p.0.now, p.1.now)) result ≡ looked_up (out-Kind kind.now) }
{
    match kind {
        Kind::Put {
            table,
            key,
            value: _,
        } => Some((table.as_slice(), key)),
        Kind::Lookup { table, key, .. } => Some((table.as_slice(), key)),
        Kind::Delete { table, key } => Some((table.as_slice(), key)),
        _ => None,
    }
}

/// Whether a look-up's key is that of the pair at this place.
pub fn key_is_at(state: &State, table: &[u8], key: &Expr, place: usize) -> Option<bool>
    ensures value { result ≡ key_is_at (config_of state.now) table.now key.now place }
    ensures next { OnSome result (place < 2 ^ 64 - 1) }
{
    let pairs = pairs_in(state, table)?;
    if place >= pairs.len() {
        return None;
    }
    let wanted = text_of(state, key)?;
    Some(pairs[place].key.as_slice() == wanted)
}

/// The key is that of the pair at this place, and the pair gets a new value.
fn renewed(
    alloc: Global,
    state: &State,
    rest: &[Shared<Task>],
    place: usize,
    table: &[u8],
    value: &Expr,
) -> Result<Option<State>, Memory>
    ensures { IfOk result (λ next. option_map config_of next ≡ after_hit (config_of state.now) rest.now place (kinds.Put table.now value.now value.now)) }
{
    let Some(pairs) = pairs_in(state, table) else {
        return Ok(None);
    };
    let Some(pair) = pairs.get(place) else {
        return Ok(None);
    };
    let Some(new) = text_of(state, value) else {
        return Ok(None);
    };
    let renewed = Pair {
        key: pair.key.copy(alloc)?,
        value: Bytes::from_slice(alloc, new)?,
    };
    let mut pairs = copy_of(alloc, pairs)?.into_vec();
    pairs[place] = renewed;
    let next = with_pairs(alloc, state, rest, table, &pairs)?;
    Ok(Some(next))
}

/// The key is that of the pair at this place, and its value is bound in a block.
fn found(
    alloc: Global,
    state: &State,
    rest: &[Shared<Task>],
    place: usize,
    table: &[u8],
    name: &Bytes,
    block: &Block,
) -> Result<Option<State>, Memory>
    ensures { IfOk result (λ next. option_map config_of next ≡ after_hit (config_of state.now) rest.now place (kinds.Lookup table.now (Expr.Num 0) name.now block.now block.now)) }
{
    let Some(pairs) = pairs_in(state, table) else {
        return Ok(None);
    };
    let Some(pair) = pairs.get(place) else {
        return Ok(None);
    };
    let mut bound = List::new(alloc);
    bound.push(bound_to(alloc, name, Value::Text(pair.value.copy(alloc)?))?)?;
    let next = entered(alloc, state, rest, block, bound)?;
    Ok(Some(next))
}

/// The pairs without that at this place.
fn without(alloc: Global, pairs: &[Pair], place: usize) -> Result<Vec<Pair>, Memory>
    ensures { IfOk result (λ after. after.items ≡ remove pairs.now place) }
{
    let mut after = copy_of(alloc, pairs)?.into_vec();
    if place < after.len() {
        after.remove(place);
    }
    Ok(after)
}

/// The key is that of the pair at this place, and the pair is removed.
fn removed(
    alloc: Global,
    state: &State,
    rest: &[Shared<Task>],
    place: usize,
    table: &[u8],
) -> Result<Option<State>, Memory>
    ensures { IfOk result (λ next. option_map config_of next ≡ after_hit (config_of state.now) rest.now place (kinds.Delete table.now (Expr.Num 0))) }
{
    let Some(pairs) = pairs_in(state, table) else {
        return Ok(None);
    };
    let pairs = without(alloc, pairs, place)?;
    let next = with_pairs(alloc, state, rest, table, &pairs)?;
    Ok(Some(next))
}

/// The state that a look-up leaves which found its key at this place.
pub fn after_hit(
    alloc: Global,
    state: &State,
    rest: &[Shared<Task>],
    place: usize,
    kind: &Kind,
) -> Result<Option<State>, Memory>
    ensures { IfOk result (λ next. option_map config_of next ≡ after_hit (config_of state.now) rest.now place (out-Kind kind.now)) }
{
    match kind {
        Kind::Put {
            table,
            key: _,
            value,
        } => renewed(alloc, state, rest, place, table.as_slice(), value),
        Kind::Lookup {
            table,
            key: _,
            name,
            found: block,
            missing: _,
        } => found(alloc, state, rest, place, table.as_slice(), name, block),
        Kind::Delete { table, key: _ } => removed(alloc, state, rest, place, table.as_slice()),
        _ => Ok(None),
    }
}

/// The pairs with a new one at the front, at most 256 of them.
fn with_new_pair(
    alloc: Global,
    pairs: &[Pair],
    key: &[u8],
    value: &[u8],
) -> Result<Vec<Pair>, Memory>
    ensures { IfOk result (λ after. after.items ≡ take most_pairs (record { key = key.now; value = value.now } ∷ pairs.now)) }
{
    let pair = Pair {
        key: Bytes::from_slice(alloc, key)?,
        value: Bytes::from_slice(alloc, value)?,
    };
    let mut after = copy_of(alloc, pairs)?.into_vec();
    after.insert(0, pair)?;
    after.truncate(256);
    Ok(after)
}

/// No pair has the key, and a new pair goes to the front.
fn added(
    alloc: Global,
    state: &State,
    rest: &[Shared<Task>],
    table: &[u8],
    key: &Expr,
    value: &Expr,
) -> Result<Option<State>, Memory>
    ensures { IfOk result (λ next. option_map config_of next ≡ after_miss (config_of state.now) rest.now (kinds.Put table.now key.now value.now)) }
{
    let Some(pairs) = pairs_in(state, table) else {
        return Ok(None);
    };
    let Some(new_key) = text_of(state, key) else {
        return Ok(None);
    };
    let Some(new) = text_of(state, value) else {
        return Ok(None);
    };
    let pairs = with_new_pair(alloc, pairs, new_key, new)?;
    let next = with_pairs(alloc, state, rest, table, &pairs)?;
    Ok(Some(next))
}

/// The state that a look-up leaves which found its key nowhere.
pub fn after_miss(
    alloc: Global,
    state: &State,
    rest: &[Shared<Task>],
    kind: &Kind,
) -> Result<Option<State>, Memory>
    ensures { IfOk result (λ next. option_map config_of next ≡ after_miss (config_of state.now) rest.now (out-Kind kind.now)) }
{
    match kind {
        Kind::Put { table, key, value } => added(alloc, state, rest, table.as_slice(), key, value),
        Kind::Lookup { missing, .. } => Ok(Some(entered(
            alloc,
            state,
            rest,
            missing,
            List::new(alloc),
        )?)),
        Kind::Delete { .. } => Ok(Some(with_rest(alloc, state, rest)?)),
        _ => Ok(None),
    }
}
