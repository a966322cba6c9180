//! A server that follows a specification, one event at a time.
#![tactic(auto)]

mod cases;
mod choice;
mod lookup;
pub mod machine;
mod message;
pub mod options;
mod parts;
mod passed;
pub mod server;
mod shared;
mod silent;
mod start;
pub mod state;
mod statement;
mod values;
