//! What rows ask.

mod dual;
mod facts;
mod frames;
mod machine;
mod network;
mod pool;
mod resolve;
mod server;
mod text;
mod tree;
mod world;

use anyhow::{Result, bail};
use dual::DualBesideServer;
use facts::FactsAsked;
use frames::answer_frame;
use hypothesis_pool::pool::Pool;
use itree_data::make::tree;
use itree_data::tree::Tree;
use machine::Machine;
use net_world::SimNet;
use port_rows::Port;
use server_run::server::Server;
use spec_check::check::check;
use spec_model::event::{Framing, Shape, WorldEvent};
use spec_model::list::Bytes;
use spec_syntax::reader::read;
use std::alloc::Global;
use std::fs;
use std::net::Net;
use std::rt::{Clock, Files};
use std::sync::Wait;
use std::thread::Threads;
use test_rows::{first_word, framing, shape};
use text::{answer_exchange, answer_script, answer_world};

/// What rows ask, as the line before them says.
#[derive(Drop)]
pub enum Subject {
    /// The readers and writers of exchanges of this shape.
    Exchange(Shape),
    /// The reader and writer of worlds of this shape.
    WorldText(Shape),
    /// The reader and writer of scripts of this shape.
    ScriptText(Shape),
    /// What parts of a send make where these messages were received.
    Resolve(Vec<Bytes>),
    /// Frames in this framing.
    Frames(Framing),
    /// The events of a world so far.
    World(Vec<WorldEvent>),
    /// A network.
    Network(SimNet),
    /// Facts about picks.
    Facts(FactsAsked),
    /// A run by a specification that is read and need not be accepted.
    Machine(Machine),
    /// A server.
    Server(Server),
    /// The tree of a specification.
    Tree(Tree),
    /// A walk along the dual of a specification, beside a server.
    Dual(DualBesideServer),
    /// A pool that is fed.
    Pool(Pool),
    /// An object of the outside, in memory.
    Port(Port),
}

impl Subject {
    /// The subject of a line: a word for its kind, and then what it is made of.
    pub fn begin(rt: &(impl AllocGlobal + Files), line: &str) -> Result<Subject> {
        let alloc = rt.alloc();
        let (kind, made_of) = first_word(line);
        Ok(match kind {
            "exchange" => Subject::Exchange(shape(made_of)?),
            "world_text" => Subject::WorldText(shape(made_of)?),
            "script_text" => Subject::ScriptText(shape(made_of)?),
            "resolve" => Subject::Resolve(resolve::begin(alloc, made_of)?),
            "frames" => Subject::Frames(framing(made_of)?),
            "world" => Subject::World(Vec::new(alloc)),
            "network" => Subject::Network(SimNet::new(alloc, made_of.parse()?)?),
            "facts" => Subject::Facts(FactsAsked::begin(alloc, made_of)?),
            "port" => Subject::Port(Port::begin(alloc, made_of)?),
            _ => of_spec(alloc, kind, fs::read_to_string(rt, made_of)?.as_str())?,
        })
    }

    /// What is answered to a row's step.
    pub fn answer<R: AllocGlobal + Threads + Wait + Net + Clock + Sync>(
        &mut self,
        rt: &R,
        step: &str,
    ) -> Result<String> {
        let alloc = rt.alloc();
        match self {
            Subject::Exchange(shape) => answer_exchange(alloc, shape, step),
            Subject::WorldText(shape) => answer_world(alloc, shape, step),
            Subject::ScriptText(shape) => answer_script(alloc, shape, step),
            Subject::Resolve(receipts) => resolve::answer(alloc, receipts, step),
            Subject::Frames(framing) => answer_frame(alloc, *framing, step),
            Subject::World(events) => world::answer(alloc, events, step),
            Subject::Network(net) => network::answer(alloc, net, step),
            Subject::Facts(asked) => asked.answer(alloc, step),
            Subject::Machine(machine) => machine.answer(alloc, step),
            Subject::Server(server) => server::answer(alloc, server, step),
            Subject::Tree(tree) => tree::answer(alloc, tree, step),
            Subject::Dual(walk) => walk.answer(alloc, step),
            Subject::Pool(pool) => pool::answer(alloc, pool, step),
            Subject::Port(port) => port.answer(rt, alloc, step),
        }
    }
}

/// The subject of this kind that is made of the text of a specification.
fn of_spec(alloc: Global, kind: &str, text: &str) -> Result<Subject> {
    let spec = read(alloc, text.as_bytes())?;
    if kind == "machine" {
        return Ok(Subject::Machine(Machine::begin(alloc, spec)?));
    }
    let spec = check(alloc, spec)?;
    Ok(match kind {
        "server" => Subject::Server(Server::new(alloc, &spec)?),
        "tree" => Subject::Tree(tree(alloc, spec)?),
        "dual" => Subject::Dual(DualBesideServer::begin(alloc, spec)?),
        "pool" => Subject::Pool(pool::begin(alloc, spec)?),
        _ => bail!("no subject"),
    })
}
