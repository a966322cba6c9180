//! Why nothing is built.

ghost use Rattle.std.specs.Prelude.{◌≡◌};

use std::alloc::AllocError;

/// Why nothing is built.
#[derive(Debug, Drop)]
pub(crate) enum Fault {
    /// No tree has these tokens.
    Shape,
    Memory,
}

impl From<AllocError> for Fault {
    ghost use Rattle.spec_build.specs.declared.fault.Fault.TheVariants.{Memory};

    ghost from_gives = { λ _ fault. fault ≡ Memory };

    fn from(_error: AllocError) -> Fault {
        Fault::Memory
    }
}
