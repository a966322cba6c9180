//! Messages that a server sends.

ghost use Rattle.std.specs.Prelude.{◌≡◌, ◌≤◌, IfOk, Some, length, ℕ};
ghost use Rattle.spec_model.specs.Message.{is_message};
ghost use Rattle.spec_model.specs.Step.{parts_sent};
ghost use Rattle.spec_model.specs.Value.{only_if, sent_as};
ghost use Rattle.server_run.specs.Reading.{value_at};
ghost use Rattle.server_run.specs.Sending.{len_with, sends_message};
ghost use Rattle.server_run.specs.State.{config_of};

use crate::state::State;
use crate::values::{ValueRef, value_of};
use itoa::Buffer;
use spec_model::Memory;
use spec_model::event::Shape;
use spec_model::list::{Bytes, List};
use spec_model::tree::Expr;
use std::alloc::Global;

/// The text as which a value is sent.
fn sent_as(alloc: Global, value: ValueRef<'_>) -> Result<Bytes, Memory>
    ensures { IfOk result (λ text. text ≡ sent_as (value_at value.entry)) }
{
    match value {
        ValueRef::Text(text) => Bytes::from_slice(alloc, text),
        ValueRef::Number(number) => {
            let mut buffer = Buffer::new();
            Bytes::from_slice(alloc, buffer.format(number).as_bytes())
        }
    }
}

/// The texts of a send's parts, each as it is sent.
pub fn parts_sent(
    alloc: Global,
    state: &State,
    parts: &[Expr],
) -> Result<Option<List<Bytes>>, Memory>
    ensures { IfOk result (λ pieces. pieces ≡ parts_sent (config_of state.now) parts.now) }
{
    let mut pieces = List::new(alloc);
    for part in parts {
        let Some(value) = value_of(state, part) else {
            return Ok(None);
        };
        pieces.push(sent_as(alloc, value)?)?;
    }
    Ok(Some(pieces))
}

/// The length of the text as which a value is sent, where that is a message.
fn sent_len(shape: &Shape, value: ValueRef<'_>) -> Option<usize>
    ensures value { result ≡ only_if (is_message shape.now (sent_as (value_at value.entry))) (Some (length (sent_as (value_at value.entry)))) }
    ensures small { (len : ℕ) → result ≡ Some len → len ≤ shape.now.limit }
{
    match value {
        ValueRef::Text(text) => shape.is_message(text).then_some(text.len()),
        ValueRef::Number(number) => {
            let mut buffer = Buffer::new();
            let digits = buffer.format(number).as_bytes();
            shape.is_message(digits).then_some(digits.len())
        }
    }
}

/// The length of a message with one piece more, where it still is a message.
fn len_with(shape: &Shape, so_far: Option<usize>, value: ValueRef<'_>) -> Option<usize>
    requires { (len : ℕ) → so_far ≡ Some len → len ≤ shape.now.limit }
    ensures { result ≡ len_with shape.now so_far (sent_as (value_at value.entry)) }
{
    let limit = usize::from(shape.limit);
    let before = so_far?;
    let len = sent_len(shape, value)?;
    let whole = before + len;
    (whole <= limit).then_some(whole)
}

/// Whether a send's parts have texts, which joined are a message.
pub fn sends_message(shape: &Shape, state: &State, parts: &[Expr]) -> bool
    ensures { result ≡ sends_message shape.now (config_of state.now) parts.now }
{
    let mut so_far = Some(0);
    for part in parts {
        let Some(value) = value_of(state, part) else {
            return false;
        };
        so_far = len_with(shape, so_far, value);
    }
    so_far.is_some()
}
