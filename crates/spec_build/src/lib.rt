//! The tree of a specification, built from its tokens.
#![tactic(auto)]

pub mod build;
mod fault;
mod header;
mod parts;
mod statements;
mod tokens;
