//! What is known about texts that a server picked and nobody has seen yet.
#![tactic(auto)]

pub mod atom;
mod characters;
mod difference;
mod equality;
pub mod facts;
mod form;
mod free;
mod key;
mod least;
pub mod symbol;
