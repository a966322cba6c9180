//! Worlds that explain exchanges: the least one with a skeleton, and whether one does.
#![tactic(auto)]

pub mod explain;
mod follower;
mod layout;
pub mod replay;
