//! The pool of hypotheses: of those that explain the events fed so far, one for each future.
#![tactic(auto)]

pub mod pool;
mod search;
mod seen;
mod thin;
