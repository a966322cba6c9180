//! The driver of one connection: it sends what its actions say, and keeps in a book exactly what passed. An event of a sent
//! message is kept before a byte of it is handed over, and one of a received message once its last byte came. The driver is
//! proved over any link and any book.
#![tactic(auto)]

mod at_hand;
pub mod driver;
mod output;
mod progress;
mod seen;
#[cfg(test)]
mod tests;

pub use driver::Driver;
use dt_ports::end::End;

/// How many idle turns in a row end the driving, or give an await up.
pub const IDLE_TURNS: u32 = 50;

/// How many bytes one receive may give.
pub const ROOM: usize = 4_096;

/// The greatest number of actions.
pub const MOST_ACTIONS: usize = 8_192;

/// What a turn answers.
#[derive(Clone, Copy, Debug, PartialEq, Eq)]
pub enum DriverState {
    /// The connection is driven on.
    Going,
    /// It is driven no further.
    Over(End),
}
