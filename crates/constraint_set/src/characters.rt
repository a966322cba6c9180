//! The characters of alphabets, and the texts over them.

ghost use Rattle.std.specs.Prelude.{◌≡◌, ◌<◌, ◌≤◌, ◌^◌, ◌↔◌, IfOk, IsTrue};
ghost use Rattle.constraint_set.specs.Characters.{character, narrower, size_of, text_numbered, texts_count};

use spec_model::Memory;
use spec_model::event::Framing;
use spec_model::list::{Bytes, List};
use spec_model::tree::Alphabet;
use std::alloc::Global;

/// The alphabet that has no more characters.
pub fn narrower(a: Alphabet, b: Alphabet) -> Alphabet
    ensures { result ≡ narrower a b }
{
    match a {
        Alphabet::Hex => Alphabet::Hex,
        Alphabet::Alnum => match b {
            Alphabet::Hex => Alphabet::Hex,
            Alphabet::Alnum => Alphabet::Alnum,
            Alphabet::Any => Alphabet::Alnum,
        },
        Alphabet::Any => b,
    }
}

/// The number of characters.
fn size_of(framing: Framing, alphabet: Alphabet) -> usize
    ensures { result ≡ size_of framing alphabet }
{
    match alphabet {
        Alphabet::Hex => 16,
        Alphabet::Alnum => 62,
        Alphabet::Any => match framing {
            Framing::Line => 255,
            Framing::Len16 => 256,
        },
    }
}

/// Whether there are more than so many texts of this length over this alphabet.
pub fn has_more_texts(framing: Framing, alphabet: Alphabet, len: u8, count: u128) -> bool
    requires { count ≤ 2 ^ 64 }
    ensures { IsTrue result ↔ (count < texts_count framing alphabet len) }
{
    let size = size_of(framing, alphabet) as u128;
    let mut found: u128 = 1;
    for _place in 0..len {
        if count < found {
            return true;
        }
        found *= size;
    }
    count < found
}

/// The character that has this number.
fn character(framing: Framing, alphabet: Alphabet, number: u8) -> u8
    requires { number < size_of framing alphabet }
    ensures { result ≡ character framing alphabet number }
{
    match alphabet {
        Alphabet::Hex => {
            if number < 10 {
                number + 48
            } else {
                number + 87
            }
        }
        Alphabet::Alnum => {
            if number < 10 {
                number + 48
            } else if number < 36 {
                number + 55
            } else {
                number + 61
            }
        }
        Alphabet::Any => match framing {
            Framing::Line => { if number < 10 { number } else { number + 1 } }
            Framing::Len16 => number,
        },
    }
}

/// The text that has this number among those of this length, in the order of their bytes.
pub fn text_numbered(
    alloc: Global,
    framing: Framing,
    alphabet: Alphabet,
    len: u8,
    number: usize,
) -> Result<Bytes, Memory>
    ensures { IfOk result (λ text. text ≡ text_numbered framing alphabet len number) }
{
    let size = size_of(framing, alphabet);
    let mut text = vec![in alloc; 0u8; usize::from(len)]?;
    let mut left = number;
    for place in (0..usize::from(len)).rev() {
        let digit = (left % size) as u8;
        text[place] = character(framing, alphabet, digit);
        left /= size;
    }
    Ok(List::from_vec(text))
}
