//! Which texts may be picked.

ghost use Rattle.std.specs.Prelude.{◌≡◌};
ghost use Rattle.std.specs.List.{list_all};
ghost use Rattle.spec_model.specs.Step.{is_character, may_be_picked};

use crate::event::Framing;
use crate::tree::Alphabet;

/// Whether a pick of this length over this alphabet may be this text.
pub fn may_be_picked(framing: Framing, len: u64, alphabet: Alphabet, text: &[u8]) -> bool
    ensures { result ≡ may_be_picked framing len alphabet text.now }
{
    text.len() as u64 == len && are_characters(framing, alphabet, text)
}

/// Whether each byte is a character of an alphabet.
fn are_characters(framing: Framing, alphabet: Alphabet, text: &[u8]) -> bool
    ensures { result ≡ list_all (is_character framing alphabet) text.now }
{
    text.iter()
        .all(|byte| is_character(framing, alphabet, *byte))
}

/// Whether a byte is a character of an alphabet.
fn is_character(framing: Framing, alphabet: Alphabet, byte: u8) -> bool
    ensures { result ≡ is_character framing alphabet byte }
{
    match alphabet {
        Alphabet::Hex => matches!(byte, b'0'..=b'9' | b'a'..=b'f'),
        Alphabet::Alnum => byte.is_ascii_alphanumeric(),
        Alphabet::Any => framing.may_have(byte),
    }
}
