//! How far the reading of a text has come.

ghost use Rattle.std.specs.Prelude.{◌≡◌, ◌≤◌, length, true};
ghost use Rattle.spec_model.specs.Spelling.{open_behind};
ghost use Rattle.spec_scan.specs.Digits.{is_part};

use crate::goal::Goal;
use crate::part::Part;
use spec_model::token::Placed;

/// The whole tokens so far, and what may follow them.
#[derive(Drop)]
pub struct Whole {
    /// What is still to be read, the next goal last.
    pub goals: Vec<Goal>,
    pub placed: Vec<Placed>,
    /// The number of braces that are open.
    pub depth: usize,
    ghost counted: { depth ≡ open_behind 0 placed.items },
    ghost few: { depth ≤ length placed.items },
}

/// What was read of a text so far.
#[derive(Drop)]
pub struct Scanner {
    pub part: Part,
    pub whole: Whole,
    ghost small: { is_part part ≡ true },
}
