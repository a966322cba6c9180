//! What Dualtest speaks of: messages, events, worlds, specifications of servers, and what they mean.
#![tactic(auto)]

pub mod config;
pub mod copy;
pub mod cut;
pub mod event;
pub mod laws;
pub mod list;
pub mod pick;
pub mod quote;
pub mod spans;
pub mod token;
pub mod tree;
pub mod value;

/// Want of memory. A call that allocates may give this answer whenever it is made.
pub type Memory = std::alloc::AllocError;
