//! A dialer in memory.

ghost use Rattle.std.specs.Prelude.{◌≡◌, ◌↔◌, ◌⊎◌, ◌++◌, ◌∷◌, [], All, Some, false, true, IfOk, IfSome, IsErr, IsSome, OnErr, OnOk};
ghost use Rattle.dt_ports.specs.Count.{next_count};
ghost use Rattle.dt_ports.specs.Link.{IsFresh};
ghost use Rattle.dt_ports.specs.MemDialer.{after_call, after_fault, has_room, NextFails};

use crate::count::{Count, Failed};
use crate::dialer::{ADDRESS_LIMIT, Address, Dialer, Request};
use crate::failing::FailingCalls;
use crate::link::Link;
use crate::mem_link::MemLink;
use spec_model::Memory;
use std::alloc::Global;
use std::collections::VecDeque;
use std::marker::Model;
use std::net::Net;
use std::rt::Clock;
use std::sync::Wait;
use std::thread::Threads;

/// A dialer in memory, that gives the links which it was made of, in order. It tells the addresses that it was given.
#[derive(Drop)]
pub struct MemDialer<L: Link> {
    links: VecDeque<L>,
    failing: FailingCalls,
    requests: Vec<Request>,
    room: usize,
    is_listening: bool,
    faults: Count,
}

impl<L: Link> Model for MemDialer<L> {
    ghost use Rattle.std.specs.Prelude.{◌≤◌, All, length, vec_capacity};
    ghost use Rattle.dt_ports.specs.Link.{IsFresh};
    ghost use Rattle.dt_ports.specs.MemDialer.{DialerInMemory};

    ghost Value = { DialerInMemory L };

    ghost view = { λ dialer. record {
      links = dialer.links.items;
      failing = dialer.failing.numbers.items;
      made = dialer.failing.made;
      requests = dialer.requests.items;
      room = dialer.room;
      is_listening = dialer.is_listening;
      faults = dialer.faults;
    } };

    ghost invariant = { λ dialer.
        (length dialer.requests.items ≤ dialer.room) × (dialer.room ≤ vec_capacity dialer.requests)
        × All (λ link. IsFresh (L.counts link) (L.sent link) (L.got link)) dialer.links.items };
}

impl MemDialer<MemLink> {
    /// A dialer that has no link to give: each `dial` and each `accept` fails.
    pub fn without_links(alloc: Global, room: usize) -> Result<MemDialer<MemLink>, Memory>
        ensures { IfOk result (λ dialer. dialer ≡ record {
          links = [];
          failing = [];
          made = 0;
          requests = [];
          room = room;
          is_listening = false;
          faults = 0;
        }) }
    {
        MemDialer::new(alloc, Vec::new(alloc), &[], room)
    }
}

impl<L: Link> MemDialer<L> {
    /// A dialer that gives these links, in order, at `dial` and `accept`; once they are used up, each of these two calls
    /// fails. Calls are numbered from 1, and those of the numbers in `failing` fail. It has room for so many addresses of at
    /// most `ADDRESS_LIMIT` bytes; a call with an address that would pass that room fails.
    pub fn new(
        alloc: Global,
        links: Vec<L>,
        failing: &[u64],
        room: usize,
    ) -> Result<MemDialer<L>, Memory>
        requires { All (λ link. IsFresh (L.counts link) (L.sent link) (L.got link)) links.items }
        ensures { IfOk result (λ dialer. dialer ≡ record {
          links = links.items;
          failing = failing.now;
          made = 0;
          requests = [];
          room = room;
          is_listening = false;
          faults = 0;
        }) }
    {
        Ok(MemDialer {
            links: VecDeque::from_vec(links),
            failing: FailingCalls {
                numbers: failing.to_vec(alloc)?,
                made: Count::new(),
            },
            requests: Vec::with_capacity(alloc, room)?,
            room,
            is_listening: false,
            faults: Count::new(),
        })
    }

    /// The addresses that it was given, but for those of calls that failed.
    pub fn requests(&self) -> &[Request]
        ensures { result.now ≡ self.now.requests }
    {
        self.requests.as_slice()
    }

    /// How many calls failed.
    pub fn faults(&self) -> u64
        ensures { result ≡ self.now.faults }
    {
        self.faults.get()
    }

    /// Counts a call that fails.
    fn fail(&mut self) -> Failed
        ensures { self.new ≡ record self.old { faults = next_count self.old.faults } }
    {
        self.faults.raise();
        Failed
    }

    /// The address, where there is room for it.
    fn kept(&self, address: &str) -> Option<Address>
        ensures some { IsSome result ↔ (has_room self.now address.now ≡ true) }
        ensures kept { IfSome result (λ kept. kept ≡ address.now) }
    {
        if self.requests.len() < self.room {
            Address::of(address)
        } else {
            None
        }
    }
}

impl<L: Link + Send> Dialer for MemDialer<L> {
    type Link = L;

    ghost requests = { λ dialer. Some dialer.requests };

    ghost is_listening = { λ dialer. dialer.is_listening };

    ghost faults = { λ dialer. dialer.faults };

    fn dial(&mut self, address: &str) -> Result<L, Failed>
        // It fails exactly where it is one of the calls that fail, no link is left, or there is no room for the address.
        ensures answer { IsErr result
            ↔ (NextFails self.old ⊎ ((self.old.links ≡ []) ⊎ (has_room self.old address.now ≡ false))) }
        ensures given { IfOk result (λ link. self.old.links ≡ link ∷ self.new.links) }
        ensures ok { OnOk result (self.new ≡ record (after_call self.old) {
          links = self.new.links;
          requests = self.old.requests ++ Request.Dial address.now ∷ [];
        }) }
        ensures err { OnErr result (self.new ≡ after_fault self.old) }
        ensures fresh { IfOk result (λ link. IsFresh (L.counts link) (L.sent link) (L.got link)) }
    {
        if self.failing.next_fails() {
            return Err(self.fail());
        }
        let Some(address) = self.kept(address) else {
            return Err(self.fail());
        };
        let Some(link) = self.links.pop_front() else {
            return Err(self.fail());
        };
        self.requests.push(Request::Dial(address)).unwrap();
        Ok(link)
    }

    fn listen(&mut self, address: &str) -> Result<(), Failed>
        // It fails exactly where it is one of the calls that fail, or there is no room for the address.
        ensures answer { IsErr result ↔ (NextFails self.old ⊎ (has_room self.old address.now ≡ false)) }
        ensures ok { OnOk result (self.new ≡ record (after_call self.old) {
          requests = self.old.requests ++ Request.Listen address.now ∷ [];
          is_listening = true;
        }) }
        ensures err { OnErr result (self.new ≡ after_fault self.old) }
    {
        if self.failing.next_fails() {
            return Err(self.fail());
        }
        let Some(address) = self.kept(address) else {
            return Err(self.fail());
        };
        self.requests.push(Request::Listen(address)).unwrap();
        self.is_listening = true;
        Ok(())
    }

    fn accept<R: Threads + Wait + Net + Clock + Sync>(&mut self, _rt: &R) -> Result<L, Failed>
        // It fails exactly where it is one of the calls that fail, no link is left, or it does not listen.
        ensures answer { IsErr result
            ↔ (NextFails self.old ⊎ ((self.old.links ≡ []) ⊎ (self.old.is_listening ≡ false))) }
        ensures given { IfOk result (λ link. self.old.links ≡ link ∷ self.new.links) }
        ensures ok { OnOk result (self.new ≡ record (after_call self.old) { links = self.new.links }) }
        ensures err { OnErr result (self.new ≡ after_fault self.old) }
        ensures fresh { IfOk result (λ link. IsFresh (L.counts link) (L.sent link) (L.got link)) }
    {
        if self.failing.next_fails() || !self.is_listening {
            return Err(self.fail());
        }
        match self.links.pop_front() {
            Some(link) => Ok(link),
            None => Err(self.fail()),
        }
    }
}
