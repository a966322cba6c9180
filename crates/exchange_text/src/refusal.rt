//! Why a text is not read.

ghost use Rattle.std.specs.Prelude.{◌≡◌};
ghost use Rattle.exchange_text.specs.declared.refusal.TextRefusal.TheVariants.{Memory};

use std::alloc::{AllocError, AllocFailed};
use thiserror::Error;

/// Why a text is not read. The number is that of the line, counted from 1.
#[derive(Clone, Copy, Debug, PartialEq, Eq, Error)]
pub enum TextRefusal {
    /// The line is not of the form for its place, or bytes stand behind the line `end`.
    #[error("line {0} is not of the form for its place")]
    BadLine(usize),
    /// At the line no LF is left.
    #[error("line {0} is not ended")]
    NoEnd(usize),
    /// The greatest number of events or actions stands before the line, which is not `end`.
    #[error("line {0} is one too many")]
    Limit(usize),
    /// Want of memory.
    #[error("out of memory")]
    Memory,
}

impl From<AllocError> for TextRefusal {
    ghost from_gives = { λ _ refusal. refusal ≡ Memory };

    fn from(_error: AllocError) -> TextRefusal {
        TextRefusal::Memory
    }
}

impl<T: Drop> From<AllocFailed<T>> for TextRefusal {
    ghost from_gives = { λ _ refusal. refusal ≡ Memory };

    fn from(_error: AllocFailed<T>) -> TextRefusal {
        TextRefusal::Memory
    }
}
