//! How many statements that compare a path of a specification passes, and so how many comparisons a run makes.
#![tactic(auto)]

mod ahead;
mod crowded;
pub mod laws;
mod places;

pub use crowded::first_crowded;
pub use places::stmt_past_limit;
