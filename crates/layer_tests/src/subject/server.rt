//! What servers offer, force and refuse.

use crate::rows::server_event;
use anyhow::{Result, bail};
use server_run::options::Options;
use server_run::server::{Server, StepRefusal};
use spec_model::event::ServerEvent;
use std::alloc::Global;
use test_rows::yes_or_no;

/// Whether a server makes the step of an event.
pub fn makes(alloc: Global, server: &mut Server, event: &ServerEvent) -> Result<bool> {
    match server.step(alloc, event) {
        Ok(()) => Ok(true),
        Err(StepRefusal::NotAllowed) => Ok(false),
        Err(refusal) => Err(refusal.into()),
    }
}

/// Whether an event is a step just where it is the forced one, if one is forced; and one is where the options say so.
pub fn is_as_forced(
    options: Options,
    forced: Option<ServerEvent>,
    event: &ServerEvent,
    is_step: bool,
) -> bool {
    match forced {
        None => options != Options::Forced,
        Some(forced) => options == Options::Forced && is_step == (forced == *event),
    }
}

/// What the server may do next, and whether it makes the step of a line.
pub fn answer(alloc: Global, server: &mut Server, line: &str) -> Result<String> {
    let event = server_event(alloc, line)?;
    let options = server.options();
    let forced = server.forced(alloc)?;
    let is_made = makes(alloc, server, &event)?;
    if !is_as_forced(options, forced, &event, is_made) {
        bail!("another event is forced");
    }
    if !is_made && server.options() != options {
        bail!("a refusal changes what may come");
    }
    Ok(format!(in alloc; "{options:?}, {}", yes_or_no(is_made))?)
}
