//! Runs by specifications that are read and need not be accepted.

use super::server::is_as_forced;
use crate::rows::server_event;
use anyhow::{Result, bail};
use server_run::machine::{after_step, begins_with_recv, forced, opening, options_of};
use server_run::state::State;
use spec_model::tree::Spec;
use std::alloc::Global;
use test_rows::yes_or_no;

/// A specification, and where its run stands.
#[derive(Drop)]
pub struct Machine {
    spec: Spec,
    state: State,
}

impl Machine {
    /// The run of no events.
    pub fn begin(alloc: Global, spec: Spec) -> Result<Machine> {
        if !begins_with_recv(&spec) {
            bail!("the loop begins with no recv");
        }
        let state = opening(alloc, &spec)?;
        Ok(Machine { spec, state })
    }

    /// What may come next, and whether the event of a line is a step; then the run goes on with it.
    pub fn answer(&mut self, alloc: Global, line: &str) -> Result<String> {
        if !begins_with_recv(&self.spec) {
            bail!("the loop begins with no recv");
        }
        let event = server_event(alloc, line)?;
        let options = options_of(&self.spec, &self.state);
        let next = after_step(alloc, &self.spec, &self.state, &event)?;
        let forced = forced(alloc, &self.spec, &self.state)?;
        if !is_as_forced(options, forced, &event, next.is_some()) {
            bail!("another event is forced");
        }
        let answer = format!(in alloc; "{options:?}, {}", yes_or_no(next.is_some()))?;
        if let Some(next) = next {
            self.state = next;
        }
        Ok(answer)
    }
}
