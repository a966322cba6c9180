//! What gives links: it dials a server, or listens and accepts.

ghost use Rattle.std.specs.Prelude.{◌≡◌, ◌≤◌, ◌↔◌, ℕ, Bool, List, Option, false, length, true, IfOk, IfSome, IsErr, IsSome, OnErr, OnOk};
ghost use Rattle.dt_ports.specs.declared.dialer.Request.{Request};
ghost use Rattle.dt_ports.specs.Count.{faults_after};
ghost use Rattle.dt_ports.specs.Dialer.{KeepsRequest};
ghost use Rattle.dt_ports.specs.Link.{IsFresh};

use crate::count::Failed;
use crate::link::Link;
use std::marker::Model;
use std::net::Net;
use std::rt::Clock;
use std::sync::Wait;
use std::thread::Threads;

/// The greatest number of bytes of an address that is kept.
pub const ADDRESS_LIMIT: usize = 64;

/// The bytes of an address, as a dialer in memory keeps them: without memory of their own.
#[derive(Debug, Drop)]
pub struct Address {
    bytes: [u8; ADDRESS_LIMIT],
    len: usize,
}

impl Model for Address {
    ghost use Rattle.std.specs.Prelude.{◌≤◌, ℕ, List, take};
    ghost use Rattle.dt_ports.specs.declared.dialer.TheConstants.{ADDRESS_LIMIT};

    ghost Value = { List ℕ };

    ghost view = { λ address. take address.len address.bytes };

    ghost invariant = { λ address. address.len ≤ ADDRESS_LIMIT };
}

impl Address {
    /// An address of this text. None exactly where it has more than `ADDRESS_LIMIT` bytes.
    pub fn of(text: &str) -> Option<Address>
        ensures kept { IfSome result (λ address. address ≡ text.now) }
        ensures some { IsSome result ↔ (length text.now ≤ ADDRESS_LIMIT) }
    {
        let text = text.as_bytes();
        if text.len() > ADDRESS_LIMIT {
            return None;
        }
        let mut bytes = [0; ADDRESS_LIMIT];
        bytes[..text.len()].copy_from_slice(text);
        Some(Address {
            bytes,
            len: text.len(),
        })
    }

    /// The bytes.
    pub fn as_bytes(&self) -> &[u8]
        ensures { result.now ≡ self.now }
    {
        &self.bytes[..self.len]
    }
}

/// What a dialer was asked for, with the address.
#[derive(Debug, Drop)]
pub enum Request {
    Dial(Address),
    Listen(Address),
}

/// What gives links. A link that it gives counted nothing and, where it tells, sent and got nothing.
///
/// An adapter over sockets keeps a `Count` of its faults and tells no requests.
pub trait Dialer {
    /// The links that it gives. They go from one thread to another.
    type Link: Link + Send;

    /// The addresses that `dial` and `listen` were given, in order, where the dialer tells them.
    ghost requests: { Self → Option (List Request) };

    /// Whether it listens.
    ghost is_listening: { Self → Bool };

    /// How many calls failed.
    ghost faults: { Self → ℕ };

    /// A new link to the server at an address.
    fn dial(&mut self, address: &str) -> Result<Self::Link, Failed>
        ensures fresh { IfOk result (λ link.
            IsFresh (Self.Link.counts link) (Self.Link.sent link) (Self.Link.got link)) }
        ensures requests { KeepsRequest (Request.Dial address.now) result (requests self.old) (requests self.new) }
        ensures listening { is_listening self.new ≡ is_listening self.old }
        ensures counted { faults self.new ≡ faults_after result (faults self.old) };

    /// Listens at an address, and is then ready to accept. After a call that failed it listens where it did before.
    fn listen(&mut self, address: &str) -> Result<(), Failed>
        ensures ready { OnOk result (is_listening self.new ≡ true) }
        ensures unready { OnErr result (is_listening self.new ≡ is_listening self.old) }
        ensures requests { KeepsRequest (Request.Listen address.now) result (requests self.old) (requests self.new) }
        ensures counted { faults self.new ≡ faults_after result (faults self.old) };

    /// The next link that comes. A call before `listen` fails.
    fn accept<R: Threads + Wait + Net + Clock + Sync>(
        &mut self,
        rt: &R,
    ) -> Result<Self::Link, Failed>
        ensures fresh { IfOk result (λ link.
            IsFresh (Self.Link.counts link) (Self.Link.sent link) (Self.Link.got link)) }
        ensures early { is_listening self.old ≡ false → IsErr result }
        ensures requests { requests self.new ≡ requests self.old }
        ensures listening { is_listening self.new ≡ is_listening self.old }
        ensures counted { faults self.new ≡ faults_after result (faults self.old) };
}
