//! What clients sent.

ghost use Rattle.std.specs.Prelude.{◌≡◌, ◌<◌, [], IfOk, OnErr, OnOk, length, replicate, slice_index_or};
ghost use Rattle.spec_model.specs.Config.{with_item_at};

use spec_model::Memory;
use spec_model::list::{Bytes, List, empty_lists, push_at};
use std::alloc::Global;
use std::marker::Model;

/// The messages that clients sent, for each connection, in order. A contract sees an inbox as these lists. Definition: own.
#[derive(Debug, Drop)]
pub struct Inbox {
    sent: List<List<Bytes>>,
}

impl Model for Inbox {
    ghost use Rattle.std.specs.Prelude.{ℕ, List};
    ghost use Rattle.std.specs.Coded.{codes};

    ghost Value = { List (List (List ℕ)) };

    ghost coded = { Prim.hlevel codes };

    ghost view = { λ inbox. inbox.sent };
}

impl Inbox {
    /// The inbox of so many connections on which nothing was sent.
    pub fn new(alloc: Global, conns: u16) -> Result<Inbox, Memory>
        ensures { IfOk result (λ inbox. inbox ≡ replicate conns []) }
    {
        Ok(Inbox {
            sent: empty_lists(alloc, conns)?,
        })
    }

    /// Puts a message behind those sent on a connection. After an error nothing is changed. The lists hold their allocator, so the one
    /// that is passed is not used.
    pub fn put(&mut self, _alloc: Global, conn: u16, message: Bytes) -> Result<(), Memory>
        requires { conn < length self.old }
        ensures ok { OnOk result (self.new ≡ with_item_at self.old conn message) }
        ensures err { OnErr result (self.new ≡ self.old) }
    {
        push_at(&mut self.sent, usize::from(conn), message)
    }

    /// The messages sent on a connection, and none on a connection that the inbox does not have.
    pub fn sent(&self, conn: u16) -> &[Bytes]
        ensures { result.now ≡ slice_index_or self.now conn [] }
    {
        match self.sent.as_slice().get(conn as usize) {
            Some(messages) => messages.as_slice(),
            None => &[],
        }
    }
}
