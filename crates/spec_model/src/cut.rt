//! Messages cut by patterns.

ghost use Rattle.std.specs.Prelude.{◌≡◌, ◌+◌, ◌-◌, ◌*◌, ◌≤◌, length, option_map, take_while};
ghost use Rattle.std.specs.Option.{SomeIff};
ghost use Rattle.spec_model.specs.Cut.{cut_of};
ghost use Rattle.spec_model.specs.Pattern.{hole_takes, is_digit, is_word_byte, item_takes, number_written, writes_number};
ghost use Rattle.spec_model.specs.Value.{greatest};

use crate::spans::Cut;
use crate::tree::{HoleKind, Item};

/// The message cut by a pattern of at most 16 items, or `None` where the pattern does not fit: it is matched from the left without going back, and fits
/// where the message is used up. It takes no memory.
pub fn cut(pattern: &[Item], message: &[u8]) -> Option<Cut>
    requires { length pattern.now ≤ 16 }
    ensures { result ≡ cut_of pattern.now message.now }
{
    let mut spans = [(0, 0); 16];
    let mut start = 0;
    for (place, item) in pattern.iter().enumerate() {
        let len = item_len(item, &message[start..])?;
        spans[place] = (start, len);
        start += len;
    }
    if start < message.len() {
        return None;
    }
    Some(Cut {
        spans,
        count: pattern.len(),
    })
}

/// How many bytes at the front an item of a pattern takes, or `None` where it does not fit. It takes no memory.
pub fn item_len(item: &Item, bytes: &[u8]) -> Option<usize>
    ensures { result ≡ option_map length (item_takes item.now bytes.now) }
{
    match item {
        Item::Lit(text) if bytes.starts_with(text.as_slice()) => Some(text.len()),
        Item::Lit(_) => None,
        Item::Hole(_, kind) => hole_len(*kind, bytes),
    }
}

/// How many bytes at the front a hole takes, where it fits.
fn hole_len(kind: HoleKind, bytes: &[u8]) -> Option<usize>
    ensures { result ≡ option_map length (hole_takes kind bytes.now) }
{
    match kind {
        HoleKind::Word => match word_len(bytes) {
            0 => None,
            len => Some(len),
        },
        HoleKind::Num => {
            let len = digit_count(bytes);
            writes_number(&bytes[..len]).then_some(len)
        }
        HoleKind::Rest => Some(bytes.len()),
    }
}

/// The length of the longest run of word bytes at the front.
fn word_len(bytes: &[u8]) -> usize
    ensures { result ≡ length (take_while is_word_byte bytes.now) }
{
    bytes.iter().take_while(|byte| **byte > b' ').count()
}

/// The length of the longest run of digits at the front.
fn digit_count(bytes: &[u8]) -> usize
    ensures { result ≡ length (take_while is_digit bytes.now) }
{
    bytes
        .iter()
        .take_while(|byte| byte.is_ascii_digit())
        .count()
}

/// Whether digits write a number as a hole takes it: 1 to 20 of them, without a leading zero unless they are `0`, and at most the greatest number.
fn writes_number(digits: &[u8]) -> bool
    ensures { result ≡ writes_number digits.now }
{
    match digits {
        [] => false,
        [b'0', _, ..] => false,
        _ => digits.len() <= 20 && number_written(digits).is_some(),
    }
}

/// The number that digits write in decimal, or `None` where it is above the greatest number. A byte below `0` counts as that digit.
pub fn number_written(digits: &[u8]) -> Option<u64>
    ensures { SomeIff result (number_written digits.now ≤ greatest) (number_written digits.now) }
{
    let mut number = 0;
    for digit in digits {
        number = with_digit(number, *digit)?;
    }
    Some(number)
}

/// The number that one more digit makes, where it is at most the greatest number.
fn with_digit(number: u64, digit: u8) -> Option<u64>
    ensures { SomeIff result (10 * number + (digit - 48) ≤ greatest) (10 * number + (digit - 48)) }
{
    number
        .checked_mul(10)?
        .checked_add(u64::from(digit.saturating_sub(b'0')))
}
