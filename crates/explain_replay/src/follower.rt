//! A server that follows a skeleton.

ghost use Rattle.std.specs.Prelude.{◌≡◌, IfOk, List, drop, option_map, slice_get, ℕ};
ghost use Rattle.std.specs.Vec.Iter.{into_iter_items};
ghost use Rattle.spec_model.specs.declared.event.Mark.{Mark};
ghost use Rattle.spec_model.specs.declared.event.ServerEvent.{ServerEvent};
ghost use Rattle.spec_model.specs.declared.event.ServerEvent.TheVariants.{Pick, Take};
ghost use Rattle.spec_model.specs.World.{IsExchange, client_sends};
ghost use Rattle.net_world.specs.declared.way.Way.TheVariants.{Up};
ghost use Rattle.net_world.specs.Net.{queue, with_queue};
ghost use Rattle.explain_replay.specs.Explain.{FindsNext, GoesOn, LieAhead, RunPicking};

use net_world::sim_net::SimNet;
use server_run::server::{Server, StepRefusal};
use spec_model::Memory;
use spec_model::event::{ClientEvent, Mark, ServerEvent, Shape};
use spec_model::list::Bytes;
use spec_rules::checked::Checked;
use std::alloc::{AllocError, Global};
use std::vec::IntoIter;

/// A server that follows a skeleton.
#[derive(Drop)]
pub struct Follower {
    server: Server,
    /// The messages that the server did not take yet are under way to it.
    net: SimNet,
    /// The texts that the server did not pick yet.
    texts: IntoIter<Bytes>,
}

/// The events of the run that has the skeleton, explains the exchange and picks these texts, in order.
pub fn events_of(
    alloc: Global,
    spec: &Checked,
    exchange: &[ClientEvent],
    skeleton: &[Mark],
    texts: Vec<Bytes>,
) -> Result<Vec<ServerEvent>, Memory>
    requires of_shape { IsExchange spec.now.shape exchange.now }
    requires some { (events : List ServerEvent) × RunPicking spec.now exchange.now skeleton.now texts.items events }
    ensures { IfOk result (λ events. RunPicking spec.now exchange.now skeleton.now texts.items events.items) }
{
    let follower = Follower::new(alloc, spec, exchange, texts)?;
    let events = followed(alloc, follower, skeleton)?;
    Ok(events)
}

/// A network of the shape's connections on which all that clients sent is under way to the server.
fn all_sent(alloc: Global, shape: Shape, exchange: &[ClientEvent]) -> Result<SimNet, Memory>
    requires { IsExchange shape exchange.now }
    ensures { IfOk result (λ net. (conn : ℕ) → queue Up conn net ≡ client_sends conn exchange.now) }
{
    let mut net = SimNet::new(alloc, shape.conns)?;
    for event in exchange {
        if let ClientEvent::Sends(conn, message) = event {
            net.up(alloc, *conn, message.copy(alloc)?)?;
        }
    }
    Ok(net)
}

/// Makes the events that lie ahead, one with each mark.
fn followed(alloc: Global, follower: Follower, marks: &[Mark]) -> Result<Vec<ServerEvent>, Memory>
    requires { (events : List ServerEvent) × LieAhead follower marks.now events }
    ensures { IfOk result (λ made. (events : List ServerEvent) → LieAhead follower marks.now events → made.items ≡ events) }
{
    let mut follower = follower;
    let mut made = Vec::new(alloc);
    for mark in marks {
        let Some(event) = follower.go_on(alloc, *mark)? else {
            unreachable!()
        };
        made.push(event)?;
    }
    Ok(made)
}

impl Follower {
    /// A follower whose server stands at the opening, all that clients sent being under way to it.
    fn new(
        alloc: Global,
        spec: &Checked,
        exchange: &[ClientEvent],
        texts: Vec<Bytes>,
    ) -> Result<Follower, Memory>
        requires { IsExchange spec.now.shape exchange.now }
        ensures { IfOk result (λ follower. (skeleton : List Mark) (events : List ServerEvent) →
            RunPicking spec.now exchange.now skeleton texts.items events → LieAhead follower skeleton events) }
    {
        Ok(Follower {
            server: Server::new(alloc, spec)?,
            net: all_sent(alloc, spec.spec().shape, exchange)?,
            texts: texts.into_iter(),
        })
    }

    /// Makes the next event, with this mark; `None` where the server does not go on by it.
    fn go_on(&mut self, alloc: Global, mark: Mark) -> Result<Option<ServerEvent>, Memory>
        ensures { IfOk result (λ made. GoesOn self.old mark self.new made) }
    {
        let Some(event) = self.next_event(alloc, mark)? else {
            return Ok(None);
        };
        match self.server.step(alloc, &event) {
            Ok(()) => Ok(Some(event)),
            Err(StepRefusal::NotAllowed) => Ok(None),
            Err(StepRefusal::Memory) => Err(AllocError),
        }
    }

    /// The next event, with this mark, where what it takes, picks or sends is known.
    fn next_event(&mut self, alloc: Global, mark: Mark) -> Result<Option<ServerEvent>, Memory>
        ensures next { IfOk result (λ found. FindsNext self.old mark self.new found) }
        ensures server { self.new.server ≡ self.old.server }
    {
        match mark {
            Mark::Take(conn) => Ok(next_take(&mut self.net, conn)),
            Mark::Arm(arm) => Ok(Some(ServerEvent::Arm(arm))),
            Mark::Test(outcome) => Ok(Some(ServerEvent::Test(outcome))),
            Mark::Pick => Ok(next_pick(&mut self.texts)),
            Mark::Send(_) => self.server.forced(alloc),
        }
    }
}

/// The take of the oldest message that is under way to the server on this connection, if there is one.
fn next_take(net: &mut SimNet, conn: u16) -> Option<ServerEvent>
    ensures oldest { result ≡ option_map (λ message. Take conn message) (slice_get (queue Up conn net.old) 0) }
    ensures left { net.new ≡ with_queue Up conn (drop 1 (queue Up conn net.old)) net.old }
{
    if usize::from(conn) >= net.conns() {
        return None;
    }
    let message = net.take(conn)?;
    Some(ServerEvent::Take(conn, message))
}

/// The pick of the first text, if there is one.
fn next_pick(texts: &mut IntoIter<Bytes>) -> Option<ServerEvent>
    ensures first { result ≡ option_map (λ text. Pick text) (slice_get (into_iter_items texts.old) 0) }
    ensures left { into_iter_items texts.new ≡ drop 1 (into_iter_items texts.old) }
{
    let text = texts.next()?;
    Some(ServerEvent::Pick(text))
}
