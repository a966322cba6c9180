//! Laws of the definitions. Each is the contract of a function that does nothing.

pub mod network;
pub mod runs;
pub mod verdicts;
