//! How a message is taken apart.

ghost use Rattle.std.specs.Prelude.{◌≡◌, IfOk, map, option_map};
ghost use Rattle.dual_step.specs.Taking.{NumberFits, with_hole};
ghost use Rattle.itree_data.specs.Standing.{with_local};
ghost use Rattle.itree_data.specs.Step.{case_taken, item_of, with_conn, with_holes};
ghost use Rattle.spec_model.specs.Pattern.{pieces_of};

use itree_data::node::{Slotted, TakeCase};
use spec_model::Memory;
use spec_model::config::Value;
use spec_model::copy::copy_of;
use spec_model::cut::item_len;
use spec_model::list::{Bytes, List};
use spec_model::tree::Item;
use spec_model::value::hole_value;
use std::alloc::Global;

/// Where a tree goes on with a message, and the locals there.
#[derive(Debug, Drop)]
pub struct Entry {
    pub next: usize,
    pub locals: List<Value>,
}

/// The locals with a slot bound to a value. Those from this slot on are bound no more.
pub fn with_local(mut locals: List<Value>, slot: u16, value: Value) -> Result<List<Value>, Memory>
    ensures { IfOk result (λ after. after ≡ with_local locals slot value) }
{
    locals.truncate(usize::from(slot));
    locals.push(value)?;
    Ok(locals)
}

/// The locals with the connection bound, where it is.
pub fn with_conn(
    alloc: Global,
    locals: &[Value],
    bound: Option<u16>,
    conn: u16,
) -> Result<List<Value>, Memory>
    ensures { IfOk result (λ after. after ≡ with_conn locals.now bound conn) }
{
    let locals = copy_of(alloc, locals)?;
    match bound {
        None => Ok(locals),
        Some(slot) => with_local(locals, slot, Value::Number(u64::from(conn))),
    }
}

/// An item as a specification writes it, but for the name of a hole.
fn item_of(alloc: Global, item: &Slotted) -> Result<Item, Memory>
    ensures { IfOk result (λ written. written ≡ item_of item.now) }
{
    match item {
        Slotted::Lit(text) => Ok(Item::Lit(text.copy(alloc)?)),
        Slotted::Hole(_, kind) => Ok(Item::Hole(List::new(alloc), *kind)),
    }
}

/// The locals with the hole of an item, where it is one, bound to what it takes.
fn with_hole(
    alloc: Global,
    locals: List<Value>,
    item: &Slotted,
    piece: &[u8],
) -> Result<List<Value>, Memory>
    requires { NumberFits item.now piece.now }
    ensures { IfOk result (λ after. after ≡ with_hole locals item.now piece.now) }
{
    match item {
        Slotted::Lit(_) => Ok(locals),
        Slotted::Hole(slot, kind) => {
            let value = hole_value(alloc, *kind, piece)?;
            with_local(locals, *slot, value)
        }
    }
}

/// The locals with the holes of a pattern bound, where the message fits it.
fn with_holes(
    alloc: Global,
    locals: &[Value],
    items: &[Slotted],
    message: &[u8],
) -> Result<Option<List<Value>>, Memory>
    ensures { IfOk result (λ after. after ≡ option_map (with_holes locals.now items.now) (pieces_of (map item_of items.now) message.now)) }
{
    let mut bound = copy_of(alloc, locals)?;
    let mut left = message;
    for item in items {
        let written = item_of(alloc, item)?;
        let Some(len) = item_len(&written, left) else {
            return Ok(None);
        };
        bound = with_hole(alloc, bound, item, &left[..len])?;
        left = &left[len..];
    }
    match left {
        [] => Ok(Some(bound)),
        _ => Ok(None),
    }
}

/// Where a tree goes on with a message: in the first case that fits it, or else at `next`, with the message bound.
pub fn case_taken(
    alloc: Global,
    locals: &[Value],
    cases: &[TakeCase],
    other: u16,
    next: usize,
    message: &Bytes,
) -> Result<Entry, Memory>
    ensures { IfOk result (λ entry. record { next = entry.next; locals = entry.locals } ≡ case_taken locals.now cases.now other next message.now) }
{
    for case in cases {
        let items = case.items.as_slice();
        if let Some(bound) = with_holes(alloc, locals, items, message.as_slice())? {
            return Ok(Entry {
                next: case.next,
                locals: bound,
            });
        }
    }
    let locals = copy_of(alloc, locals)?;
    Ok(Entry {
        next,
        locals: with_local(locals, other, Value::Text(message.copy(alloc)?))?,
    })
}
