//! Walks along duals, each beside a server of the same specification.

use super::server::makes;
use crate::rows::server_event;
use anyhow::{Result, bail};
use dual_step::state::State;
use dual_step::steps::{after_step, opening};
use dual_tree::dual::Dual;
use dual_tree::turn::dual_of;
use server_run::server::Server;
use spec_rules::checked::Checked;
use std::alloc::Global;
use test_rows::yes_or_no;

/// A dual, where the server stands in it, and a server of the same specification.
#[derive(Drop)]
pub struct DualBesideServer {
    dual: Dual,
    state: State,
    server: Server,
}

impl DualBesideServer {
    /// Both at their openings.
    pub fn begin(alloc: Global, spec: Checked) -> Result<DualBesideServer> {
        let server = Server::new(alloc, &spec)?;
        let dual = dual_of(alloc, spec)?;
        let state = opening(alloc, &dual)?;
        Ok(DualBesideServer {
            dual,
            state,
            server,
        })
    }

    /// Whether the event of a line is a step along the dual, as it has to be one of the server; then both make it.
    pub fn answer(&mut self, alloc: Global, line: &str) -> Result<String> {
        let event = server_event(alloc, line)?;
        let next = after_step(alloc, &self.dual, &self.state, &event)?;
        let is_made = makes(alloc, &mut self.server, &event)?;
        if is_made != next.is_some() {
            bail!("the server says otherwise than the dual");
        }
        if let Some(next) = next {
            self.state = next;
        }
        Ok(String::from_str(alloc, yes_or_no(is_made))?)
    }
}
