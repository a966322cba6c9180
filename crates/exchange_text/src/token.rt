//! Numbers and quotations in a line.

ghost use Rattle.std.specs.Prelude.{◌≡◌, ◌++◌, IfOk, OnOk, decimal};
ghost use Rattle.exchange_text.specs.LooseReading.{number_of, unquoted};

use itoa::Buffer;
use spec_model::Memory;
use spec_model::list::{Bytes, List};
use spec_model::quote::loosely_unquoted;
use std::alloc::Global;

/// Puts a number at the end, decimal and without leading zeros.
pub fn put_number(out: &mut Vec<u8>, number: u32) -> Result<(), Memory>
    ensures { OnOk result (out.new.items ≡ out.old.items ++ decimal number) }
{
    let mut buffer = Buffer::new();
    out.extend_from_slice(buffer.format(number).as_bytes())
}

/// The number whose digits these are, where it is at most 65,535. Of other bytes it makes any number.
pub fn number_of(digits: &[u8]) -> u16
    ensures { result ≡ number_of digits.now }
{
    digits.iter().fold(0, |number: u16, digit| {
        number
            .saturating_mul(10)
            .saturating_add(u16::from(digit.saturating_sub(b'0')))
    })
}

/// The text of a quotation: what stands between its first byte and its last one, read loosely.
pub fn unquoted(alloc: Global, quotation: &[u8]) -> Result<Bytes, Memory>
    ensures { IfOk result (λ text. text ≡ unquoted quotation.now) }
{
    match quotation {
        [_, inside @ .., _] => Ok(List::from_vec(loosely_unquoted(alloc, inside)?)),
        _ => Ok(List::new(alloc)),
    }
}
