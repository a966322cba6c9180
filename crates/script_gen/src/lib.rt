//! Scripts from a number: what clients are to do is drawn from the words of a seed, by the patterns of a specification, so that a
//! specification, a seed, a number of connections and a number of steps give the same script on each machine.
#![tactic(auto)]

mod draft;
mod part;
mod plan;
pub mod script;
mod seen;
#[cfg(test)]
mod tests;
pub mod words;
