//! Whether a specification is accepted, and what is refused first where it is not.
#![tactic(auto)]

pub mod check;
mod conns;
mod decls;
mod found;
mod known;
mod sizes;
mod statement;
mod types;
mod values;
mod walk;
mod whole;
