//! The texts of exchanges, worlds and scripts: lines, each ended by LF, the last of which is `end`.
#![tactic(auto)]

pub mod action;
mod action_line;
mod client_line;
pub mod exchange;
pub mod laws;
mod limits;
mod line;
mod part_line;
pub mod refusal;
pub mod script;
mod server_line;
mod shape;
mod token;
pub mod world;
mod world_line;
