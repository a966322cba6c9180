//! What is kept of a live exchange.

use spec_model::event::ClientEvent;

/// An event of a client, with the number of the worker that kept it.
#[derive(Debug, Drop)]
pub struct Entry {
    pub worker: u32,
    pub event: ClientEvent,
}
