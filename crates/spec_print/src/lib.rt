//! The canonical spelling of specifications.
#![tactic(auto)]

pub mod laws;
mod page;
mod parts;
pub mod print;
mod statements;
