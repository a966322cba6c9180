//! One value behind a lock, whose list of entries is a history of which each holder of a seat knows
//! its own part.
#![tactic(auto)]

mod listed;
mod lock;
mod rule;
mod seat;
#[cfg(test)]
mod tests;
mod turn;
mod view;

pub use listed::Listed;
pub use lock::TurnLock;
pub use seat::Seat;
pub use turn::Turn;
pub use view::Placed;
