//! The first text that is not taken.

ghost use Rattle.std.specs.Prelude.{◌≡◌, IfOk};
ghost use Rattle.constraint_set.specs.Free.{first_free, is_taken};

use crate::characters::text_numbered;
use spec_model::Memory;
use spec_model::event::Framing;
use spec_model::list::Bytes;
use spec_model::tree::Alphabet;
use std::alloc::Global;

/// Whether a text is one of these.
fn is_taken(taken: &[Bytes], text: &Bytes) -> bool
    ensures { result ≡ is_taken taken.now text.now }
{
    taken.iter().any(|other| text == other)
}

/// The first text of this length over this alphabet that is not one of those taken.
pub fn first_free(
    alloc: Global,
    framing: Framing,
    alphabet: Alphabet,
    len: u8,
    taken: &[Bytes],
) -> Result<Bytes, Memory>
    ensures { IfOk result (λ text. text ≡ first_free framing alphabet len taken.now) }
{
    for number in 0..taken.len() {
        let text = text_numbered(alloc, framing, alphabet, len, number)?;
        if !is_taken(taken, &text) {
            return Ok(text);
        }
    }
    text_numbered(alloc, framing, alphabet, len, taken.len())
}
