//! Reading specifications.

ghost use Rattle.std.specs.Prelude.{◌≡◌, ◌<◌, ◌≤◌, IfErr, IfOk, MatchResult, length, ℕ};
ghost use Rattle.spec_model.specs.declared.tree.Spec.{Spec};
ghost use Rattle.spec_model.specs.Spelling.{IsRefusedAt, IsWithinBraces};
ghost use Rattle.spec_syntax.specs.declared.reader.ReadRefusal.TheVariants.{Memory, Syntax, TooLong};
ghost use Rattle.spec_syntax.specs.Readable.{IsReadable, IsReadRefusal, UnlessMemory, greatest_length};

use spec_build::build::build;
use spec_model::tree::Spec;
use spec_scan::refusal::ScanRefusal;
use spec_scan::scan;
use std::alloc::{AllocError, Global};
use thiserror::Error;

/// The greatest number of bytes of a text.
pub const GREATEST_LENGTH: usize = 65_536;

/// Why a text is not read.
#[derive(Clone, Copy, Debug, PartialEq, Eq, Error)]
pub enum ReadRefusal {
    /// No specification begins with the bytes up to and including this place, or the text ends here too early, or this is the
    /// 33rd brace that is open at once.
    #[error("no specification goes on so at byte {at}")]
    Syntax { at: usize },
    /// The text is longer than a specification's may be.
    #[error("the text is too long")]
    TooLong,
    #[error("out of memory")]
    Memory,
}

impl From<AllocError> for ReadRefusal {
    ghost use Rattle.spec_syntax.specs.declared.reader.ReadRefusal.TheVariants.{Memory};

    ghost from_gives = { λ _ refusal. refusal ≡ Memory };

    fn from(_error: AllocError) -> ReadRefusal {
        ReadRefusal::Memory
    }
}

/// The specification that a text of at most 65,536 bytes spells, with the places at which its parts stand there. A longer text is
/// TooLong. Any other text is refused by Syntax at the first byte with which no specification goes on, or at its length where it
/// ends too early, or at the 33rd brace that is open at once, whichever comes first. Definition: own.
pub fn read(alloc: Global, text: &[u8]) -> Result<Spec, ReadRefusal>
    ensures spelled { IfOk result (λ spec. IsReadable text.now spec) }
    ensures only { (spec : Spec) → IsReadable text.now spec → MatchResult result (λ read. read ≡ spec) (λ refusal. refusal ≡ Memory) }
    ensures refused { IfErr result (λ refusal. IsReadRefusal text.now refusal) }
    ensures too_long { greatest_length < length text.now → result ≡ Err TooLong }
    ensures only_refused { (at : ℕ) → length text.now ≤ greatest_length → IsRefusedAt text.now at
        → MatchResult result (λ read. ⊥) (λ refusal. UnlessMemory refusal (refusal ≡ Syntax at)) }
{
    if text.len() > GREATEST_LENGTH {
        return Err(ReadRefusal::TooLong);
    }
    let tokens = match scan(alloc, text) {
        Ok(tokens) => tokens,
        Err(ScanRefusal::Syntax { at }) => return Err(ReadRefusal::Syntax { at }),
        Err(ScanRefusal::Memory) => return Err(ReadRefusal::Memory),
    };
    match build(alloc, &tokens)? {
        Some(spec) => Ok(spec),
        None => unreachable!(),
    }
}
