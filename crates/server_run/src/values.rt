//! What names and written values stand for.

ghost use Rattle.std.specs.Prelude.{◌≡◌, IfOk, min, option_map};
ghost use Rattle.std.specs.Option.{option_copied};
ghost use Rattle.spec_model.specs.Step.{assigned_value};
ghost use Rattle.spec_model.specs.Value.{comparison, number_of, sum_or_difference, text_of, truth_of, value_in, value_named, value_of};
ghost use Rattle.server_run.specs.Reading.{value_at};
ghost use Rattle.server_run.specs.State.{config_of};

use crate::shared::Shared;
use crate::state::State;
use spec_model::Memory;
use spec_model::config::{Binding, Value};
use spec_model::list::Bytes;
use spec_model::tree::{Cond, Expr, Op, Sign};
use std::alloc::Global;

/// A value that is borrowed.
#[derive(Clone, Copy)]
pub enum ValueRef<'a> {
    Text(&'a [u8]),
    Number(u64),
}

/// What a name is bound to.
fn value_in<'a>(bindings: &'a [Shared<Binding>], name: &[u8]) -> Option<&'a Value>
    ensures { option_copied result ≡ value_in bindings.now name.now }
{
    let binding = bindings
        .iter()
        .find(|binding| binding.get().name.as_slice() == name)?;
    Some(&binding.get().value)
}

/// A value, borrowed.
fn borrow(value: &Value) -> ValueRef<'_>
    ensures { value_at result ≡ value.now }
{
    match value {
        Value::Text(text) => ValueRef::Text(text.as_slice()),
        Value::Number(number) => ValueRef::Number(*number),
    }
}

/// What a name stands for: a local, or else a register.
fn value_named<'a>(state: &'a State, name: &[u8]) -> Option<ValueRef<'a>>
    ensures { option_map value_at result ≡ value_named (config_of state.now) name.now }
{
    match value_in(state.locals.as_slice(), name) {
        Some(value) => Some(borrow(value)),
        None => match value_in(state.registers.as_slice(), name) {
            Some(value) => Some(borrow(value)),
            None => None,
        },
    }
}

/// What a written value stands for.
pub fn value_of<'a>(state: &'a State, expr: &'a Expr) -> Option<ValueRef<'a>>
    ensures { option_map value_at result ≡ value_of (config_of state.now) expr.now }
{
    match expr {
        Expr::Text(text) => Some(ValueRef::Text(text.as_slice())),
        Expr::Num(number) => Some(ValueRef::Number(*number)),
        Expr::Name(name) => value_named(state, name.as_slice()),
    }
}

/// The text that a written value stands for, where it is one.
pub fn text_of<'a>(state: &'a State, expr: &'a Expr) -> Option<&'a [u8]>
    ensures { option_copied result ≡ text_of (config_of state.now) expr.now }
{
    match value_of(state, expr) {
        Some(ValueRef::Text(text)) => Some(text),
        _ => None,
    }
}

/// The number that a written value stands for, where it is one.
pub fn number_of(state: &State, expr: &Expr) -> Option<u64>
    ensures { result ≡ number_of (config_of state.now) expr.now }
{
    match value_of(state, expr) {
        Some(ValueRef::Number(number)) => Some(number),
        _ => None,
    }
}

/// Whether two values compare so, where they can be compared so.
fn comparison(op: Op, left: ValueRef<'_>, right: ValueRef<'_>) -> Option<bool>
    ensures { result ≡ comparison op (value_at left.entry) (value_at right.entry) }
{
    match (op, left, right) {
        (Op::Same, ValueRef::Text(a), ValueRef::Text(b)) => Some(a == b),
        (Op::Same, ValueRef::Number(a), ValueRef::Number(b)) => Some(a == b),
        (Op::Other, ValueRef::Text(a), ValueRef::Text(b)) => Some(a != b),
        (Op::Other, ValueRef::Number(a), ValueRef::Number(b)) => Some(a != b),
        (Op::Less, ValueRef::Number(a), ValueRef::Number(b)) => Some(a < b),
        _ => None,
    }
}

/// Whether a condition holds, where its values can be compared so.
pub fn truth_of(state: &State, cond: &Cond) -> Option<bool>
    ensures { result ≡ truth_of (config_of state.now) cond.now }
{
    let left = value_of(state, &cond.left)?;
    let right = value_of(state, &cond.right)?;
    comparison(cond.op, left, right)
}

/// A sum, at most the greatest number, or a difference, at least 0.
fn sum_or_difference(sign: Sign, a: u64, b: u64) -> u64
    ensures { result ≡ sum_or_difference sign a b }
{
    match sign {
        Sign::Plus => a.saturating_add(b),
        Sign::Minus => a.saturating_sub(b),
    }
}

/// A value of its own.
fn owned(alloc: Global, value: ValueRef<'_>) -> Result<Value, Memory>
    ensures { IfOk result (λ owned. owned ≡ value_at value.entry) }
{
    match value {
        ValueRef::Text(text) => Ok(Value::Text(Bytes::from_slice(alloc, text)?)),
        ValueRef::Number(number) => Ok(Value::Number(number)),
    }
}

/// The sum or difference of two written numbers.
fn computed(state: &State, left: &Expr, sign: Sign, right: &Expr) -> Option<u64>
    ensures { option_map Value.Number result ≡ assigned_value (config_of state.now) left.now (Some (sign, right.now)) }
{
    let a = number_of(state, left)?;
    let b = number_of(state, right)?;
    Some(sum_or_difference(sign, a, b))
}

/// The value that an assignment gives.
pub fn assigned_value(
    alloc: Global,
    state: &State,
    left: &Expr,
    tail: &Option<(Sign, Expr)>,
) -> Result<Option<Value>, Memory>
    ensures { IfOk result (λ value. value ≡ assigned_value (config_of state.now) left.now tail.now) }
{
    match tail {
        None => match value_of(state, left) {
            None => Ok(None),
            Some(value) => Ok(Some(owned(alloc, value)?)),
        },
        Some((sign, right)) => Ok(computed(state, left, *sign, right).map(Value::Number)),
    }
}
