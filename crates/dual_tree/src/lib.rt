//! Duals: trees turned round. Where the tree of a server takes, its tester offers; where it sends, the tester expects; and what
//! the server picks, tests and chooses is to be found out.
#![tactic(auto)]

pub mod dual;
pub mod node;
pub mod turn;
