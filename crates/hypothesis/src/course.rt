//! The course of a skeleton along a dual.

use crate::hypothesis::Hypothesis;

/// Where a skeleton leads, and when its marks are made. Definition: own.
#[derive(Debug, Drop)]
pub struct Along {
    /// The hypothesis that stands for the skeleton.
    pub end: Hypothesis,
    /// For each event of the exchange the number of marks that are made before it and behind the event before.
    pub blocks: Vec<usize>,
}
