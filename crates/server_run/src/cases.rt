//! The case in which a server goes on with a message.

ghost use Rattle.std.specs.Prelude.{◌≡◌, IfOk, option_map};
ghost use Rattle.spec_model.specs.Pattern.{bindings_of, pieces_of};
ghost use Rattle.spec_model.specs.Step.{chosen_case};
ghost use Rattle.server_run.specs.Cases.{NumberFits, entry_of, item_bindings};

use crate::parts::bound_to;
use crate::shared::Shared;
use spec_model::Memory;
use spec_model::config::{Binding, Value};
use spec_model::cut::item_len;
use spec_model::list::{Bytes, List};
use spec_model::tree::{Block, Case, Item};
use spec_model::value::hole_value;
use std::alloc::Global;

/// A block, and the names that are bound in it.
#[derive(Drop)]
pub struct Entry<'a> {
    pub block: &'a Block,
    pub bound: List<Shared<Binding>>,
}

/// What an item of a pattern binds.
fn item_bindings(alloc: Global, item: &Item, piece: &[u8]) -> Result<List<Shared<Binding>>, Memory>
    requires { NumberFits item.now piece.now }
    ensures { IfOk result (λ bound. bound ≡ item_bindings item.now piece.now) }
{
    match item {
        Item::Lit(_) => Ok(List::new(alloc)),
        Item::Hole(name, kind) => {
            let value = hole_value(alloc, *kind, piece)?;
            let mut bound = List::new(alloc);
            bound.push(bound_to(alloc, name, value)?)?;
            Ok(bound)
        }
    }
}

/// What the holes of a pattern bind, where the message fits it.
fn bound_by(
    alloc: Global,
    items: &[Item],
    message: &[u8],
) -> Result<Option<List<Shared<Binding>>>, Memory>
    ensures { IfOk result (λ bound. bound ≡ option_map (bindings_of items.now) (pieces_of items.now message.now)) }
{
    let mut bound = List::new(alloc);
    let mut left = message;
    for item in items {
        let Some(len) = item_len(item, left) else {
            return Ok(None);
        };
        bound.append(item_bindings(alloc, item, &left[..len])?)?;
        left = &left[len..];
    }
    match left {
        [] => Ok(Some(bound)),
        _ => Ok(None),
    }
}

/// The first case that fits the message, or else `other`.
pub fn chosen_case<'a>(
    alloc: Global,
    cases: &'a [Case],
    other: &Bytes,
    block: &'a Block,
    message: &[u8],
) -> Result<Entry<'a>, Memory>
    ensures { IfOk result (λ entry. entry_of entry ≡ chosen_case cases.now other.now block.now message.now) }
{
    for case in cases {
        if let Some(bound) = bound_by(alloc, case.items.as_slice(), message)? {
            return Ok(Entry {
                block: &case.block,
                bound,
            });
        }
    }
    let mut bound = List::new(alloc);
    let value = Value::Text(Bytes::from_slice(alloc, message)?);
    bound.push(bound_to(alloc, other, value)?)?;
    Ok(Entry { block, bound })
}
