//! Steps along a dual, with written values: how a server stands at a place of its dual, and how each event moves it on.
#![tactic(auto)]

pub mod changes;
pub mod compare;
pub mod events;
pub mod next;
pub mod silent;
mod start;
pub mod state;
pub mod steps;
pub mod taking;
pub mod values;
