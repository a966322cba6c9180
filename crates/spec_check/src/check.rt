//! Checking specifications.

ghost use Rattle.std.specs.Prelude.{◌≡◌, IfErr, IfOk, MatchResult, ℕ};
ghost use Rattle.spec_rules.specs.declared.fault.Fault.{Fault};
ghost use Rattle.spec_rules.specs.Accepted.{IsAccepted, IsFirstBad, IsWritten};
ghost use Rattle.spec_check.specs.declared.check.CheckRefusal.TheVariants.{Bad, Memory};
ghost use Rattle.spec_check.specs.Answer.{IfBad, UnlessMemory};

use crate::whole::first_fault;
use spec_model::tree::Spec;
use spec_rules::checked::Checked;
use spec_rules::fault::Fault;
use std::alloc::{AllocError, Global};
use thiserror::Error;

/// Why a specification is not accepted.
#[derive(Clone, Copy, Debug, PartialEq, Eq, Error)]
pub enum CheckRefusal {
    /// This is wrong with it, at this place in its text.
    #[error("the specification is refused at byte {at}")]
    Bad { fault: Fault, at: usize },
    #[error("out of memory")]
    Memory,
}

impl From<AllocError> for CheckRefusal {
    ghost use Rattle.spec_check.specs.declared.check.CheckRefusal.TheVariants.{Memory};

    ghost from_gives = { λ _ refusal. refusal ≡ Memory };

    fn from(_error: AllocError) -> CheckRefusal {
        CheckRefusal::Memory
    }
}

/// Keeps a specification that is accepted: nothing is bad in it. Any other is refused by what is bad at its first place in the text,
/// and there by the least kind, and there by the least limit. Definition: own.
pub fn check(alloc: Global, spec: Spec) -> Result<Checked, CheckRefusal>
    requires { IsWritten spec }
    ensures same { IfOk result (λ checked. checked ≡ spec) }
    ensures accepted { IfOk result (λ checked. IsAccepted checked) }
    ensures only { IsAccepted spec → MatchResult result (λ checked. checked ≡ spec) (λ refusal. refusal ≡ Memory) }
    ensures refused { IfErr result (λ refusal. IfBad refusal (IsFirstBad spec)) }
    ensures only_refused { (fault : Fault) (at : ℕ) → IsFirstBad spec fault at
        → MatchResult result (λ checked. ⊥) (λ refusal. UnlessMemory refusal (refusal ≡ Bad fault at)) }
{
    match first_fault(alloc, &spec)? {
        None => Ok(Checked::of(spec)),
        Some(found) => Err(CheckRefusal::Bad {
            fault: found.fault,
            at: found.at,
        }),
    }
}
