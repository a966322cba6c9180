//! What the values of nodes stand for.

ghost use Rattle.std.specs.Prelude.{◌≡◌, IfOk, min, option_and_then, option_map, slice_get};
ghost use Rattle.spec_model.specs.Value.{as_number, comparison, sent_as, sum_or_difference};
ghost use Rattle.dual_step.specs.State.{standing_of};
ghost use Rattle.itree_data.specs.Value.{number_at, pieces_at, text_at, truth_at, value_assigned, value_at};

use crate::state::State;
use itoa::Buffer;
use itree_data::node::Val;
use spec_model::Memory;
use spec_model::config::Value;
use spec_model::copy::TryCopy;
use spec_model::list::{Bytes, List};
use spec_model::tree::{Op, Sign};
use std::alloc::Global;

/// The value of that number, or `None` where there is none.
fn item_at(alloc: Global, values: &[Value], number: u16) -> Result<Option<Value>, Memory>
    ensures { IfOk result (λ value. value ≡ slice_get values.now number) }
{
    match values.get(usize::from(number)) {
        None => Ok(None),
        Some(value) => Ok(Some(value.copy(alloc)?)),
    }
}

/// The value, or `None` where nothing is stored there.
pub fn value_at(alloc: Global, state: &State, val: &Val) -> Result<Option<Value>, Memory>
    ensures { IfOk result (λ value. value ≡ value_at (standing_of state.now) val.now) }
{
    match val {
        Val::Text(text) => Ok(Some(Value::Text(text.copy(alloc)?))),
        Val::Num(number) => Ok(Some(Value::Number(*number))),
        Val::Conn(number) => Ok(Some(Value::Number(*number))),
        Val::Register(register) => item_at(alloc, state.registers.as_slice(), *register),
        Val::Local(slot) => item_at(alloc, state.locals.as_slice(), *slot),
    }
}

/// The text, or `None` where it is none.
pub fn text_at(alloc: Global, state: &State, val: &Val) -> Result<Option<Bytes>, Memory>
    ensures { IfOk result (λ text. text ≡ text_at (standing_of state.now) val.now) }
{
    match value_at(alloc, state, val)? {
        Some(Value::Text(text)) => Ok(Some(text)),
        _ => Ok(None),
    }
}

/// The value of that number, where it is a number.
fn number_in(values: &[Value], number: u16) -> Option<u64>
    ensures { result ≡ option_and_then as_number (slice_get values.now number) }
{
    match values.get(usize::from(number)) {
        Some(Value::Number(number)) => Some(*number),
        _ => None,
    }
}

/// The number, or the number of the connection, or `None` where it is none. It takes no memory.
pub fn number_at(state: &State, val: &Val) -> Option<u64>
    ensures { result ≡ number_at (standing_of state.now) val.now }
{
    match val {
        Val::Text(_) => None,
        Val::Num(number) => Some(*number),
        Val::Conn(number) => Some(*number),
        Val::Register(register) => number_in(state.registers.as_slice(), *register),
        Val::Local(slot) => number_in(state.locals.as_slice(), *slot),
    }
}

/// Whether two values compare so, where they can be compared so.
fn comparison(op: Op, left: &Value, right: &Value) -> Option<bool>
    ensures { result ≡ comparison op left.now right.now }
{
    match (op, left, right) {
        (Op::Same, Value::Text(a), Value::Text(b)) => Some(a.as_slice() == b.as_slice()),
        (Op::Same, Value::Number(a), Value::Number(b)) => Some(*a == *b),
        (Op::Other, Value::Text(a), Value::Text(b)) => Some(a.as_slice() != b.as_slice()),
        (Op::Other, Value::Number(a), Value::Number(b)) => Some(*a != *b),
        (Op::Less, Value::Number(a), Value::Number(b)) => Some(*a < *b),
        _ => None,
    }
}

/// Whether the two values compare so, or `None` where they cannot be compared.
pub fn truth_at(
    alloc: Global,
    state: &State,
    left: &Val,
    op: Op,
    right: &Val,
) -> Result<Option<bool>, Memory>
    ensures { IfOk result (λ truth. truth ≡ truth_at (standing_of state.now) left.now op right.now) }
{
    let Some(left) = value_at(alloc, state, left)? else {
        return Ok(None);
    };
    let Some(right) = value_at(alloc, state, right)? else {
        return Ok(None);
    };
    Ok(comparison(op, &left, &right))
}

/// The text as which a value is sent.
fn sent_as(alloc: Global, value: Value) -> Result<Bytes, Memory>
    ensures { IfOk result (λ text. text ≡ sent_as value) }
{
    match value {
        Value::Text(text) => Ok(text),
        Value::Number(number) => {
            let mut buffer = Buffer::new();
            Bytes::from_slice(alloc, buffer.format(number).as_bytes())
        }
    }
}

/// The texts of the parts of a send, each as it is sent, or `None` where one of them is stored nowhere.
pub fn pieces_at(alloc: Global, state: &State, parts: &[Val]) -> Result<Option<List<Bytes>>, Memory>
    ensures { IfOk result (λ pieces. pieces ≡ pieces_at (standing_of state.now) parts.now) }
{
    let mut pieces = List::new(alloc);
    for part in parts {
        let Some(value) = value_at(alloc, state, part)? else {
            return Ok(None);
        };
        pieces.push(sent_as(alloc, value)?)?;
    }
    Ok(Some(pieces))
}

/// A sum, at most the greatest number, or a difference, at least 0.
fn sum_or_difference(sign: Sign, a: u64, b: u64) -> u64
    ensures { result ≡ sum_or_difference sign a b }
{
    match sign {
        Sign::Plus => a.saturating_add(b),
        Sign::Minus => a.saturating_sub(b),
    }
}

/// The sum or difference of two numbers, or `None` where one of them is none.
fn computed(state: &State, left: &Val, sign: Sign, right: &Val) -> Option<u64>
    ensures { option_map Value.Number result ≡ value_assigned (standing_of state.now) left.now (Some (sign, right.now)) }
{
    let a = number_at(state, left)?;
    let b = number_at(state, right)?;
    Some(sum_or_difference(sign, a, b))
}

/// The value that is assigned, or `None` where there is none: one value, or a sum or difference of numbers.
pub fn value_assigned(
    alloc: Global,
    state: &State,
    left: &Val,
    tail: &Option<(Sign, Val)>,
) -> Result<Option<Value>, Memory>
    ensures { IfOk result (λ value. value ≡ value_assigned (standing_of state.now) left.now tail.now) }
{
    match tail {
        None => value_at(alloc, state, left),
        Some((sign, right)) => Ok(computed(state, left, *sign, right).map(Value::Number)),
    }
}
