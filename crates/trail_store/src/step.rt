//! The steps of a trail, as they lie in memory.

use spec_model::event::Mark;

/// A step behind another one. Definition: own.
#[derive(Clone, Copy, Debug, PartialEq, Eq)]
pub struct Step {
    /// The number of the step that it goes on from.
    pub parent: u32,
    /// The mark by which it goes on.
    pub mark: Mark,
}
