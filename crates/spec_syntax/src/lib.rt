//! Texts of specifications: which tree a text spells, or where it is refused.
#![tactic(auto)]

pub mod laws;
pub mod reader;
