//! What passed on each connection.

ghost use Rattle.std.specs.Prelude.{◌≡◌, ℕ, List, [], replicate};
ghost use Rattle.std.specs.Coded.{coded_ℕ, coded_list};
ghost use Rattle.std.specs.Borrow.{ftrue};
ghost use Rattle.spec_model.specs.Config.{with_item_at};

use spec_model::list::{Bytes, List};
use std::marker::Model;

/// What passed on each connection since the opening. No step asks for it, so contracts alone see it: it takes no memory, and
/// whatever is done with it is nothing when it runs. Definition: own.
#[derive(Debug, Drop)]
pub struct Passed {
    /// For each connection the messages taken.
    pub ghost taken: { List (List (List ℕ)) } by { coded_list (coded_list (coded_list coded_ℕ)) },
    /// For each connection the messages sent, each as the list of its parts' texts.
    pub ghost sent: { List (List (List (List ℕ))) } by { coded_list (coded_list (coded_list (coded_list coded_ℕ))) },
}

impl Model for Passed {
    ghost also_owns = { λ _. ftrue };
}

impl Passed {
    /// Nothing, on each of so many connections.
    pub fn nothing(_conns: u16) -> Passed
        ensures { result ≡ record { taken = replicate _conns []; sent = replicate _conns [] } }
    {
        Passed {}
    }

    /// The same.
    pub fn copy(&self) -> Passed
        ensures { result ≡ self.now }
    {
        Passed {}
    }

    /// The same, and this message taken on that connection.
    pub fn with_taken(&self, _conn: u16, _message: &Bytes) -> Passed
        ensures { result ≡ record self.now { taken = with_item_at self.now.taken _conn _message.now } }
    {
        Passed {}
    }

    /// The same, and a message of these pieces sent on that connection.
    pub fn with_sent(&self, _conn: u16, _pieces: &List<Bytes>) -> Passed
        ensures { result ≡ record self.now { sent = with_item_at self.now.sent _conn _pieces.now } }
    {
        Passed {}
    }
}
