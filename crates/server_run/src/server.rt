//! Servers.

ghost use Rattle.std.specs.Prelude.{◌≡◌, ◌↔◌, IfErr, IfOk, IfSome, IsTrue, OnErr, OnOk, is_some};
ghost use Rattle.spec_model.specs.Run.{Opens, Step};
ghost use Rattle.server_run.specs.Options.{IsForced, Tells, forced_event, options_in};
ghost use Rattle.server_run.specs.declared.options.Options.TheVariants as options;
ghost use Rattle.server_run.specs.declared.server.StepRefusal.TheVariants.{Memory, NotAllowed};

use crate::machine::{after_step, forced, opening, options_of};
use crate::options::Options;
use crate::state::State;
use spec_model::Memory;
use spec_model::event::ServerEvent;
use spec_rules::checked::Checked;
use std::alloc::{AllocError, Global};
use std::marker::Model;
use thiserror::Error;

/// Why a server makes no step.
#[derive(Clone, Copy, Debug, PartialEq, Eq, Error)]
pub enum StepRefusal {
    /// The server has no step with this event.
    #[error("the server has no step with this event")]
    NotAllowed,
    /// Want of memory.
    #[error("out of memory")]
    Memory,
}

impl From<AllocError> for StepRefusal {
    ghost from_gives = { λ _ refusal. refusal ≡ Memory };

    fn from(_error: AllocError) -> StepRefusal {
        StepRefusal::Memory
    }
}

/// A server that follows a specification, one event at a time. A contract sees it as its specification and the
/// configuration in which it stands. What is to do there stands in the specification. What was taken and sent is not in
/// memory, so that a step takes no longer after many events than after few. Definition: own.
#[derive(Debug, Drop)]
pub struct Server {
    spec: Checked,
    state: State,
}

impl Model for Server {
    ghost use Rattle.server_run.specs.Served.{Served};
    ghost use Rattle.server_run.specs.State.{config_of};
    ghost use Rattle.std.specs.List.{AllByRecursion};
    ghost use Rattle.spec_rules.specs.ToDo.{IsTaskOf};
    ghost use Rattle.spec_model.specs.contracts.tree.Block as block;
    ghost use Rattle.spec_model.specs.contracts.tree.Kind as kind;
    ghost use Rattle.std.specs.Coded.{codes};

    ghost Value = { Served };

    ghost coded = { Prim.hlevel (codes, block.the_row.coded, kind.the_row.coded) };

    ghost view = { λ server. record { spec = server.spec; config = config_of server.state } };

    ghost invariant = { λ server. AllByRecursion (IsTaskOf server.spec) server.state.todo };
}

impl Server {
    ghost use Rattle.spec_model.specs.declared.config.Config.{Config};

    /// A server of the specification, at its opening.
    pub fn new(alloc: Global, spec: &Checked) -> Result<Server, Memory>
        ensures { IfOk result (λ server. (server.spec ≡ spec.now) × Opens spec.now server.config) }
    {
        let spec = spec.copy(alloc)?;
        let state = opening(alloc, spec.spec())?;
        Ok(Server { spec, state })
    }

    /// What the server may do next. It takes no memory.
    pub fn options(&self) -> Options
        ensures value { result ≡ options_in self.now.spec self.now.config }
        ensures tells { Tells self.now.spec self.now.config result }
    {
        options_of(self.spec.spec(), &self.state)
    }

    /// The one event that may come next, where it is a test or a send, and otherwise `None`.
    pub fn forced(&self, alloc: Global) -> Result<Option<ServerEvent>, Memory>
        ensures value { IfOk result (λ answer. answer ≡ forced_event self.now.spec self.now.config) }
        ensures event { IfOk result (λ answer. IfSome answer (λ event. IsForced self.now.spec self.now.config event)) }
        ensures variant { IfOk result (λ answer. IsTrue (is_some answer) ↔ (options_in self.now.spec self.now.config ≡ options.Forced)) }
    {
        forced(alloc, self.spec.spec(), &self.state)
    }

    /// Makes the step with this event; it is `NotAllowed` where the server has none. After a refusal the server is as it was.
    pub fn step(&mut self, alloc: Global, event: &ServerEvent) -> Result<(), StepRefusal>
        ensures spec { self.new.spec ≡ self.old.spec }
        ensures ok { OnOk result (Step self.old.spec self.old.config event.now self.new.config) }
        ensures refused { OnErr result (self.new ≡ self.old) }
        ensures not_allowed { IfErr result (λ refusal. refusal ≡ NotAllowed →
            (new : Config) → ¬ Step self.old.spec self.old.config event.now new) }
    {
        match after_step(alloc, self.spec.spec(), &self.state, event)? {
            None => Err(StepRefusal::NotAllowed),
            Some(next) => {
                self.state = next;
                Ok(())
            }
        }
    }
}
