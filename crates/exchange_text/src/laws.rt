//! Laws of texts: what is spelled by exactly one text, and is refused nowhere.

pub mod exchange;
pub mod script;
pub mod world;
