//! Reads the tokens of a specification's text, or finds the byte from which no specification can go on.
#![tactic(auto)]

ghost use Rattle.std.specs.Prelude.{◌≡◌, ℕ, IfErr, IfOk, MatchResult};
ghost use Rattle.spec_model.specs.declared.tree.Spec.{Spec};
ghost use Rattle.spec_model.specs.Spelling.{greatest_open, IsRefusedAt, IsWithinBraces, Spells};
ghost use Rattle.spec_scan.specs.Scan.{first_state, scan};
ghost use Rattle.spec_scan.specs.Scanned.{HasTokens, IsRefusal, IsRefusalOf, UnlessMemory};
ghost use Rattle.spec_scan.specs.declared.refusal.ScanRefusal.TheVariants.{Syntax, Memory};

mod goal;
pub mod laws;
mod part;
pub mod refusal;
mod run;
mod scanner;
mod stack;
mod state;
mod table;
mod whole;

use refusal::ScanRefusal;
use spec_model::token::Placed;
use state::Scanner;
use std::alloc::Global;

/// The greatest number of braces that are open at one time.
pub const MAX_OPEN: usize = 32;

/// The tokens of the text of a specification, each with the place of its first byte. An error other than `Memory` is the first
/// byte with which no specification goes on, or the text's length where it ends too early, or the 33rd open brace, whichever
/// comes first. The text's length has no limit here. Definition: own.
pub fn scan(alloc: Global, text: &[u8]) -> Result<Vec<Placed>, ScanRefusal>
    ensures found { IfOk result (λ placed. HasTokens text.now placed.items) }
    ensures only { (spec : Spec) → (h : Spells text.now spec) → IsWithinBraces 0 h.tokens →
        MatchResult result (λ placed. placed.items ≡ h.tokens) (λ refusal. refusal ≡ Memory) }
    ensures refused { IfErr result (λ refusal. IsRefusal text.now refusal) }
    ensures only_refused { (at : ℕ) → IsRefusedAt text.now at →
        MatchResult result (λ placed. ⊥) (λ refusal. UnlessMemory refusal (refusal ≡ Syntax at)) }
{
    read(alloc, text)
}

/// Reads a text byte by byte.
fn read(alloc: Global, text: &[u8]) -> Result<Vec<Placed>, ScanRefusal>
    ensures { MatchResult result (λ placed. scan greatest_open text.now 0 first_state ≡ Ok placed.items)
        (λ refusal. IsRefusalOf (scan greatest_open text.now 0 first_state) refusal) }
{
    let mut scanner = Scanner::new(alloc)?;
    for (place, byte) in text.iter().enumerate() {
        let Some(next) = scanner.step(alloc, place, *byte)? else {
            return Err(ScanRefusal::Syntax { at: place });
        };
        if next.whole.depth > MAX_OPEN {
            return Err(ScanRefusal::Syntax { at: place });
        }
        scanner = next;
    }
    match scanner.finish()? {
        Some(placed) => Ok(placed),
        None => Err(ScanRefusal::Syntax { at: text.len() }),
    }
}
