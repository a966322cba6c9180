//! What a client received.

ghost use Rattle.std.specs.Prelude.{◌≡◌, ◌↔◌, [], IfOk, IsTrue, List, OnErr, drop, option_copied, slice_get, slice_index_or, slice_set};
ghost use Rattle.std.specs.List.{concat};
ghost use Rattle.spec_model.specs.declared.event.ClientEvent.{ClientEvent};
ghost use Rattle.spec_model.specs.declared.event.Mark.{Mark};
ghost use Rattle.dual_tree.specs.Dual.{DualFields, IsDual};
ghost use Rattle.hypothesis.specs.declared.received.Received.TheVariants.{Yes};
ghost use Rattle.hypothesis.specs.Received.{Tells};
ghost use Rattle.hypothesis.specs.Stands.{StandsFor};

use crate::hypothesis::Hypothesis;
use crate::received::Received;
use spec_model::Memory;
use spec_model::list::{Bytes, List};
use std::alloc::Global;
use std::mem;

impl Hypothesis {
    /// Whether the client can have received this message next on the connection. If so, it is taken from what is pending. After any
    /// other answer, and after an error, the hypothesis is as it was; step and mark stay after any.
    pub fn receive(&mut self, alloc: Global, conn: u16, message: &Bytes) -> Result<Received, Memory>
        ensures ok { IfOk result (λ answer. (dual : DualFields) (exchange : List ClientEvent) (skeleton : List Mark) → IsDual dual
            → StandsFor dual exchange skeleton self.old → Tells dual exchange skeleton conn message.now self.old self.new answer) }
        ensures same { IfOk result (λ answer. (answer ≡ Yes → ⊥) → self.new ≡ self.old) }
        ensures err { OnErr result (self.new ≡ self.old) }
    {
        let Some(oldest) = oldest_pending(self.state.pending.as_slice(), conn) else {
            return Ok(Received::Nothing);
        };
        if !is_joined(oldest.as_slice(), message.as_slice()) {
            return Ok(Received::No);
        }
        take_oldest(alloc, &mut self.state.pending, conn);
        Ok(Received::Yes)
    }
}

/// The pieces of the oldest message that is pending on a connection, if there is one.
fn oldest_pending(pending: &[List<List<Bytes>>], conn: u16) -> Option<&List<Bytes>>
    ensures { option_copied result ≡ slice_get (slice_index_or pending.now conn []) 0 }
{
    let messages = pending.get(usize::from(conn))?;
    messages.as_slice().first()
}

/// Whether these pieces, joined, are the message. It takes no memory.
fn is_joined(pieces: &[Bytes], message: &[u8]) -> bool
    ensures { IsTrue result ↔ (concat pieces.now ≡ message.now) }
{
    let mut rest = message;
    for piece in pieces {
        match rest.strip_prefix(piece.as_slice()) {
            Some(later) => rest = later,
            None => return false,
        }
    }
    rest.is_empty()
}

/// Takes the oldest message that is pending on a connection out, if there is one. It takes no memory.
fn take_oldest(alloc: Global, pending: &mut List<List<List<Bytes>>>, conn: u16)
    ensures { pending.new ≡ slice_set pending.old conn (drop 1 (slice_index_or pending.old conn [])) }
{
    let mut lists = mem::replace(pending, List::new(alloc)).into_vec();
    if let Some(messages) = lists.get_mut(usize::from(conn)) {
        let later = without_first(mem::replace(messages, List::new(alloc)));
        *messages = later;
    }
    *pending = List::from_vec(lists);
}

/// The list without its first item, if it has one.
fn without_first(list: List<List<Bytes>>) -> List<List<Bytes>>
    ensures { result ≡ drop 1 list }
{
    let mut items = list.into_vec();
    if !items.is_empty() {
        let _ = items.remove(0);
    }
    List::from_vec(items)
}
