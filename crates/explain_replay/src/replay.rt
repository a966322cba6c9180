//! Whether a world explains an exchange.

ghost use Rattle.std.specs.Prelude.{◌≡◌, ◌≢◌, ◌⊎◌, ◌∷◌, [], IfErr, IfOk, MatchOption, OnOk, slice_get, true};
ghost use Rattle.std.specs.Bool.{OnFalse, OnTrue};
ghost use Rattle.std.specs.List.{list_all};
ghost use Rattle.spec_model.specs.Run.{IsRun, Steps};
ghost use Rattle.spec_model.specs.World.{Explains, clients_of, server_of};
ghost use Rattle.spec_model.specs.declared.config.Config.{Config};
ghost use Rattle.net_world.specs.Legality.{is_below};
ghost use Rattle.explain_replay.specs.Replay.{FirstDifference, FirstNoStep, IsRefused};
ghost use Rattle.explain_replay.specs.declared.replay.ReplayRefusal.{ReplayRefusal};
ghost use Rattle.explain_replay.specs.declared.replay.ReplayRefusal.TheVariants.{Memory};

use net_world::{CONNS, legal};
use server_run::server::{Server, StepRefusal};
use spec_model::Memory;
use spec_model::event::{ClientEvent, WorldEvent};
use spec_rules::checked::Checked;
use std::alloc::{AllocError, Global};
use thiserror::Error;

/// Why a world does not show that an exchange is explained. Places are counted from 1. Definition: own.
#[derive(Clone, Copy, Debug, PartialEq, Eq, Error)]
pub enum ReplayRefusal {
    /// The world is not legal: at its event of this place legality ends.
    #[error("the world is not legal at event {0}")]
    NotLegal(usize),
    /// The world's server events are no run: that of this place in the world is the first that is no step.
    #[error("event {0} of the world is no step of the server")]
    NotServer(usize),
    /// The world's client events are not the exchange: the event of this place is the first in which they differ, or which one
    /// of them lacks.
    #[error("the world is one of another exchange from its client event {0} on")]
    NotExchange(usize),
    /// Want of memory.
    #[error("out of memory")]
    Memory,
}

impl From<AllocError> for ReplayRefusal {
    ghost from_gives = { λ _ refusal. refusal ≡ Memory };

    fn from(_error: AllocError) -> ReplayRefusal {
        ReplayRefusal::Memory
    }
}

/// Whether the world, whose connections are below `CONNS`, explains the exchange. Where it does not, the answer says why: first
/// whether it is legal is asked, then whether its server events are a run, then whether its client events are the exchange. Each is
/// asked by passing over the world once, along the specification itself and nothing that was made of it.
pub fn replays(
    alloc: Global,
    spec: &Checked,
    exchange: &[ClientEvent],
    world: &[WorldEvent],
) -> Result<(), ReplayRefusal>
    requires { list_all (is_below CONNS) world.now ≡ true }
    ensures ok { OnOk result (Explains spec.now world.now exchange.now) }
    ensures refused { IfErr result (IsRefused spec.now exchange.now world.now) }
    ensures only_explains { Explains spec.now world.now exchange.now → IfErr result (λ refusal. refusal ≡ Memory) }
    ensures only_refused { (refusal : ReplayRefusal) → IsRefused spec.now exchange.now world.now refusal → refusal ≢ Memory
        → (result ≡ Err refusal) ⊎ (result ≡ Err Memory) }
{
    if let Err((place, _)) = legal(world) {
        return Err(ReplayRefusal::NotLegal(place));
    }
    if let Some(place) = first_no_step(alloc, spec, world)? {
        return Err(ReplayRefusal::NotServer(place));
    }
    match first_difference(exchange, world) {
        None => Ok(()),
        Some(place) => Err(ReplayRefusal::NotExchange(place)),
    }
}

/// The place from 1 of the first server event that is no step, where there is one.
fn first_no_step(
    alloc: Global,
    spec: &Checked,
    world: &[WorldEvent],
) -> Result<Option<usize>, Memory>
    ensures { IfOk result (λ place. MatchOption place
        (IsRun spec.now (server_of world.now))
        (FirstNoStep spec.now world.now)) }
{
    let mut server = Server::new(alloc, spec)?;
    for (number, event) in world.iter().enumerate() {
        if !follows(alloc, &mut server, event)? {
            return Ok(Some(number + 1));
        }
    }
    Ok(None)
}

/// Makes the step of a server event. Whether there is one; a client event asks for none.
fn follows(alloc: Global, server: &mut Server, event: &WorldEvent) -> Result<bool, Memory>
    ensures spec { server.new.spec ≡ server.old.spec }
    ensures goes_on { IfOk result (λ is_step. OnTrue is_step
        (Steps server.old.spec server.old.config (server_of (event.now ∷ [])) server.new.config)) }
    ensures ends { IfOk result (λ is_step. OnFalse is_step
        ((new : Config) → ¬ Steps server.old.spec server.old.config (server_of (event.now ∷ [])) new)) }
{
    let WorldEvent::Server(event) = event else {
        return Ok(true);
    };
    match server.step(alloc, event) {
        Ok(()) => Ok(true),
        Err(StepRefusal::NotAllowed) => Ok(false),
        Err(StepRefusal::Memory) => Err(AllocError),
    }
}

/// The place from 1 of the first event in which the exchange and the world's client events differ, where they do.
fn first_difference(exchange: &[ClientEvent], world: &[WorldEvent]) -> Option<usize>
    ensures { MatchOption result
        (clients_of world.now ≡ exchange.now)
        (FirstDifference exchange.now (clients_of world.now)) }
{
    let mut count = 0;
    for event in world {
        if let WorldEvent::Client(event) = event {
            if !stands_at(exchange, count, event) {
                return Some(count + 1);
            }
            count += 1;
        }
    }
    if count < exchange.len() {
        Some(count + 1)
    } else {
        None
    }
}

/// Whether the exchange has this event at the place of this number, from 0.
fn stands_at(exchange: &[ClientEvent], number: usize, event: &ClientEvent) -> bool
    ensures holds { OnTrue result (slice_get exchange.now number ≡ Some event.now) }
    ensures fails { OnFalse result (slice_get exchange.now number ≢ Some event.now) }
{
    match exchange.get(number) {
        Some(seen) => seen == event,
        None => false,
    }
}
