//! The rules that a specification must keep, and specifications that are known to keep them.
#![tactic(auto)]

pub mod checked;
pub mod fault;
pub mod laws;
pub mod names;
