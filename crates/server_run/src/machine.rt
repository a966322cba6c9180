//! The steps of a server, as functions of its specification and of where it stands.

ghost use Rattle.std.specs.Prelude.{◌≡◌, ◌↔◌, IfOk, IfSome, IsTrue, MatchOption, None, is_some};
ghost use Rattle.std.specs.Bool.{OnFalse, OnTrue};
ghost use Rattle.spec_model.specs.Run.{BeginsWithRecv, Opens, Step};
ghost use Rattle.spec_model.specs.Step.{after_event};
ghost use Rattle.server_run.specs.Options.{IsForced, IsTold, Tells, forced_event, options_in};
ghost use Rattle.server_run.specs.State.{config_of};
ghost use Rattle.server_run.specs.declared.options.Options.TheVariants as options;

use crate::choice::{forced_event, options_in};
use crate::options::Options;
use crate::silent::settled;
use crate::start::first_state;
use crate::state::State;
use crate::statement::after_event;
use spec_model::Memory;
use spec_model::event::ServerEvent;
use spec_model::tree::{Kind, Spec};
use std::alloc::Global;

/// Whether the loop's body begins with a `recv`. It takes no memory.
pub fn begins_with_recv(spec: &Spec) -> bool
    ensures holds { OnTrue result (BeginsWithRecv spec.now) }
    ensures fails { OnFalse result (¬ BeginsWithRecv spec.now) }
{
    match spec.body.stmts.as_slice() {
        [first, ..] => matches!(&first.kind, Kind::Recv { .. }),
        [] => false,
    }
}

/// The state from which a server begins, its first silent work done.
pub fn opening(alloc: Global, spec: &Spec) -> Result<State, Memory>
    requires { BeginsWithRecv spec.now }
    ensures { IfOk result (λ state. Opens spec.now (config_of state)) }
{
    let first = first_state(alloc, spec)?;
    settled(alloc, spec, first)
}

/// The state to which a step with this event leads, or `None` where the server has no step with it.
pub fn after_step(
    alloc: Global,
    spec: &Spec,
    state: &State,
    event: &ServerEvent,
) -> Result<Option<State>, Memory>
    requires { BeginsWithRecv spec.now }
    ensures { IfOk result (λ next. MatchOption next
        (after_event spec.now (config_of state.now) event.now ≡ None)
        (λ new. Step spec.now (config_of state.now) event.now (config_of new))) }
{
    match after_event(alloc, spec, state, event)? {
        None => Ok(None),
        Some(middle) => {
            let new = settled(alloc, spec, middle)?;
            Ok(Some(new))
        }
    }
}

/// What the server may do next, by the first thing that it has to do. It takes no memory.
pub fn options_of(spec: &Spec, state: &State) -> Options
    ensures value { result ≡ options_in spec.now (config_of state.now) }
    ensures tells { IsTold (config_of state.now) → Tells spec.now (config_of state.now) result }
{
    options_in(spec, state)
}

/// The one event that may come next, where it is a test or a send, and otherwise `None`.
pub fn forced(alloc: Global, spec: &Spec, state: &State) -> Result<Option<ServerEvent>, Memory>
    ensures value { IfOk result (λ answer. answer ≡ forced_event spec.now (config_of state.now)) }
    ensures event { IfOk result (λ answer. IfSome answer (λ event. IsForced spec.now (config_of state.now) event)) }
    ensures variant { IfOk result (λ answer. IsTrue (is_some answer) ↔ (options_in spec.now (config_of state.now) ≡ options.Forced)) }
{
    forced_event(alloc, spec, state)
}
