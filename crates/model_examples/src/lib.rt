//! The definitions of `spec_model` say what they should on cases worked out by hand. Each case is a checked statement: the
//! contract of a function that does nothing. The specifications stand in `specs/`, each below its text.
#![tactic(auto)]

pub mod explained;
pub mod messages;
pub mod order;
pub mod patterns;
pub mod refused;
pub mod spelled;
pub mod statements;
pub mod tables;
pub mod values;
