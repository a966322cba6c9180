//! The world outside the judge, as traits: files that are read, an output that is written, links to a server, what gives
//! those links, and books that keep the events of an exchange. With each trait stands its form in memory.
//!
//! No proof can say what a real file, terminal or peer does. So each answer that is not a success, but for want of memory,
//! shows its cause by a count that rose, and what passed through an object is claimed only where the object tells it. The
//! forms in memory tell it; the adapters over the real outside tell nothing.
#![tactic(auto)]

pub mod book;
pub mod count;
pub mod dialer;
pub mod end;
pub mod entry;
mod failing;
pub mod files;
mod flag;
pub mod gated_link;
pub mod laws;
pub mod link;
pub mod list_book;
pub mod meet_link;
pub mod mem_dialer;
pub mod mem_files;
pub mod mem_link;
pub mod mem_sink;
mod room;
pub mod sink;
pub mod steps;
