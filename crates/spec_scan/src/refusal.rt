//! Why a text is not read.

ghost use Rattle.std.specs.Prelude.{◌≡◌};
ghost use Rattle.spec_scan.specs.declared.refusal.ScanRefusal.TheVariants.{Memory};

use std::alloc::{AllocError, AllocFailed};
use thiserror::Error;

/// Why a text is not read.
#[derive(Clone, Copy, Debug, PartialEq, Eq, Error)]
pub enum ScanRefusal {
    /// No specification begins with the bytes up to and including this place, or the text ends here too early, or this is the
    /// 33rd open brace.
    #[error("no specification goes on so at byte {at}")]
    Syntax { at: usize },
    /// Want of memory.
    #[error("out of memory")]
    Memory,
}

impl From<AllocError> for ScanRefusal {
    ghost from_gives = { λ _ refusal. refusal ≡ Memory };

    fn from(_error: AllocError) -> ScanRefusal {
        ScanRefusal::Memory
    }
}

impl<T: Drop> From<AllocFailed<T>> for ScanRefusal {
    ghost from_gives = { λ _ refusal. refusal ≡ Memory };

    fn from(_error: AllocFailed<T>) -> ScanRefusal {
        ScanRefusal::Memory
    }
}
