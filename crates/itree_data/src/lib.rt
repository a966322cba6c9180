//! Trees: specifications as tables of nodes. A node says what a server does there and which node is next; a tree makes the
//! runs of its specification.
#![tactic(auto)]

mod compile;
mod firsts;
mod leaves;
mod lookups;
pub mod make;
pub mod node;
mod nodes;
pub mod parts;
mod resolve;
mod scope;
mod slots;
pub mod tree;
mod whole;
