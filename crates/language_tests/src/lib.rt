//! Tests of the crates that read and print specifications, and nothing else.
#![tactic(auto)]

#[cfg(test)]
mod tests;
