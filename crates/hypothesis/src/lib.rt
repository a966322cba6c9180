//! Hypotheses: each stands for the runs of the server with one skeleton that may explain what was seen, followed along the dual.
#![tactic(auto)]

pub mod along;
pub mod course;
pub mod expand;
pub mod hypothesis;
pub mod inbox;
pub mod laws;
pub mod picks;
pub mod receive;
pub mod received;
