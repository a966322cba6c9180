//! Skeletons that share their beginnings: a trail keeps of each of them the last mark, and which one went before it.
#![tactic(auto)]

mod keep;
mod step;
#[cfg(test)]
mod tests;
pub mod trail;

pub use trail::Trail;
