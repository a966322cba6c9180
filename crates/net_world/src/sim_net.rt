//! A network in memory.

ghost use Rattle.std.specs.Prelude.{◌≡◌, ◌↔◌, ◌<◌, ◌++◌, ◌∷◌, [], IfOk, IsNone, OnErr, OnOk, drop, length, map, replicate, slice_get};
ghost use Rattle.net_world.specs.declared.way.Way.TheVariants.{Up, Down};
ghost use Rattle.net_world.specs.Net.{held, nothing, queue, with_queue};

use spec_model::Memory;
use spec_model::list::Bytes;
use std::alloc::Global;
use std::collections::VecDeque;
use std::marker::Model;

/// The messages under way on a connection, each way, the oldest in front.
#[derive(Drop)]
pub struct Queues {
    up: VecDeque<Bytes>,
    down: VecDeque<Bytes>,
}

/// A network in memory, which keeps the messages under way on each connection, each way, in order. Connections are numbered from 0.
/// Definition: own.
#[derive(Drop)]
pub struct SimNet {
    conns: Vec<Queues>,
}

impl Model for SimNet {
    ghost use Rattle.std.specs.Prelude.{List, map};
    ghost use Rattle.net_world.specs.Net.{UnderWay, held};

    ghost Value = { List UnderWay };

    ghost view = { λ net. map held net.conns.items };
}

impl SimNet {
    /// A network of so many connections, with nothing under way.
    pub fn new(alloc: Global, conns: u16) -> Result<SimNet, Memory>
        ensures { IfOk result (λ net. net ≡ replicate conns nothing) }
    {
        let mut queues = Vec::with_capacity(alloc, usize::from(conns))?;
        for _ in 0..conns {
            queues.push(Queues {
                up: VecDeque::new(alloc),
                down: VecDeque::new(alloc),
            })?;
        }
        Ok(SimNet { conns: queues })
    }

    /// The number of connections.
    pub fn conns(&self) -> usize
        ensures { result ≡ length self.now }
    {
        self.conns.len()
    }

    /// Puts a message that the client sent behind those under way to the server. After an error nothing is changed. The queues hold
    /// their allocator, so the one that is passed is not used.
    pub fn up(&mut self, _alloc: Global, c: u16, m: Bytes) -> Result<(), Memory>
        requires { c < length self.old }
        ensures ok { OnOk result (self.new ≡ with_queue Up c (queue Up c self.old ++ m ∷ []) self.old) }
        ensures err { OnErr result (self.new ≡ self.old) }
    {
        self.conns[usize::from(c)].up.push_back(m)?;
        Ok(())
    }

    /// Puts a message that the server sent behind those under way to the client. After an error nothing is changed. The queues hold
    /// their allocator, so the one that is passed is not used.
    pub fn down(&mut self, _alloc: Global, c: u16, m: Bytes) -> Result<(), Memory>
        requires { c < length self.old }
        ensures ok { OnOk result (self.new ≡ with_queue Down c (queue Down c self.old ++ m ∷ []) self.old) }
        ensures err { OnErr result (self.new ≡ self.old) }
    {
        self.conns[usize::from(c)].down.push_back(m)?;
        Ok(())
    }

    /// Takes out the oldest message under way to the server, if there is one. It takes no memory.
    pub fn take(&mut self, c: u16) -> Option<Bytes>
        requires { c < length self.old }
        ensures oldest { result ≡ slice_get (queue Up c self.old) 0 }
        ensures none { IsNone result ↔ (queue Up c self.old ≡ []) }
        ensures left { self.new ≡ with_queue Up c (drop 1 (queue Up c self.old)) self.old }
    {
        self.conns[usize::from(c)].up.pop_front()
    }

    /// Takes out the oldest message under way to the client, if there is one. It takes no memory.
    pub fn receive(&mut self, c: u16) -> Option<Bytes>
        requires { c < length self.old }
        ensures oldest { result ≡ slice_get (queue Down c self.old) 0 }
        ensures none { IsNone result ↔ (queue Down c self.old ≡ []) }
        ensures left { self.new ≡ with_queue Down c (drop 1 (queue Down c self.old)) self.old }
    {
        self.conns[usize::from(c)].down.pop_front()
    }
}
