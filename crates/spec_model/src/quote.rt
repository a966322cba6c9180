//! Texts between quotes.

ghost use Rattle.std.specs.Prelude.{◌≡◌, ◌<◌, ◌++◌, ◌∷◌, ◌≢◌, IfNone, IfOk, IfSome, List, OnOk, flat_map, option_to_list, ℕ};
ghost use Rattle.spec_model.specs.Reading.{IsProgress, hex_value, read_on};
ghost use Rattle.spec_model.specs.Quote.{IsText, hex_digit, quotation_of, quoted_byte};

use crate::Memory;
use crate::list::{Bytes, List};
use std::alloc::Global;

/// Puts a text between quotes at the end of `out`, in the one way in which texts are written so: printable ASCII as it is, but
/// with a `\` before `"` and `\`, and every other byte as `\x` and two hexadecimal digits. After an error `out` still begins as it
/// did.
pub fn put_quotation(out: &mut Vec<u8>, text: &[u8]) -> Result<(), Memory>
    ensures { OnOk result (out.new.items ≡ out.old.items ++ quotation_of text.now) }
{
    out.push(b'"')?;
    put_quoted(out, text)?;
    out.push(b'"')?;
    Ok(())
}

/// Puts the inside of a text's quotation at the end.
fn put_quoted(out: &mut Vec<u8>, text: &[u8]) -> Result<(), Memory>
    ensures ok { OnOk result (out.new.items ≡ out.old.items ++ flat_map quoted_byte text.now) }
    // What the type says of a text.
    ensures bytes { IsText text.now }
{
    for byte in text {
        put_quoted_byte(out, *byte)?;
    }
    Ok(())
}

fn put_quoted_byte(out: &mut Vec<u8>, byte: u8) -> Result<(), Memory>
    ensures { OnOk result (out.new.items ≡ out.old.items ++ quoted_byte byte) }
{
    match byte {
        b'"' | b'\\' => out.extend_from_slice(&[b'\\', byte]),
        b' '..=b'~' => out.extend_from_slice(&[byte]),
        _ => {
            let escape = [
                b'\\',
                b'x',
                hex_digit_of(byte / 16),
                hex_digit_of(byte % 16),
            ];
            out.extend_from_slice(&escape)
        }
    }
}

/// The hexadecimal digit of a value below 16.
fn hex_digit_of(value: u8) -> u8
    requires { value < 16 }
    ensures { result ≡ hex_digit value }
{
    if value < 10 {
        b'0' + value
    } else {
        b'a' - 10 + value
    }
}

/// The text of which these bytes are the inside of the quotation, or `None` where they are that of no text.
pub fn unquoted(alloc: Global, inside: &[u8]) -> Result<Option<Bytes>, Memory>
    ensures found { IfOk result (λ found. IfSome found (λ text. IsText text × (inside.now ≡ flat_map quoted_byte text))) }
    ensures none { IfOk result (λ found. IfNone found ((text : List ℕ) → IsText text → inside.now ≢ flat_map quoted_byte text)) }
{
    let text = loosely_unquoted(alloc, inside)?;
    let mut again = Vec::new(alloc);
    put_quoted(&mut again, &text)?;
    if again.as_slice() == inside {
        Ok(Some(List::from_vec(text)))
    } else {
        Ok(None)
    }
}

/// How far the reading of a quoted text has come.
#[derive(Clone, Copy, Debug, PartialEq, Eq)]
pub enum Progress {
    /// Between two bytes of the text.
    Between,
    /// Behind a `\`.
    Escape,
    /// Behind `\x`.
    FirstDigit,
    /// Behind `\x` and a digit of this value.
    SecondDigit(u8),
}

/// The text that was quoted, if these bytes are the inside of a quotation. Of other bytes it makes anything, so whoever reads so
/// compares the bytes with the quotation of what was read.
pub fn loosely_unquoted(alloc: Global, inside: &[u8]) -> Result<Vec<u8>, Memory>
    ensures { IfOk result (λ text. text.items ≡ read_on Progress.Between inside.now) }
{
    let mut text = Vec::new(alloc);
    let mut progress = Progress::Between;
    for byte in inside {
        let (next, whole) = step(progress, *byte);
        if let Some(whole) = whole {
            text.push(whole)?;
        }
        progress = next;
    }
    Ok(text)
}

/// What a byte leads to, and the byte of the text that it completes.
fn step(progress: Progress, byte: u8) -> (Progress, Option<u8>)
    requires { IsProgress progress }
    ensures reads { (rest : List ℕ) → read_on progress (byte ∷ rest) ≡ option_to_list result.1 ++ read_on result.0 rest }
    ensures goes_on { IsProgress result.0 }
{
    match progress {
        Progress::Between if byte == b'\\' => (Progress::Escape, None),
        Progress::Between => (Progress::Between, Some(byte)),
        Progress::Escape if byte == b'x' => (Progress::FirstDigit, None),
        Progress::Escape => (Progress::Between, Some(byte)),
        Progress::FirstDigit => (Progress::SecondDigit(value_of_digit(byte)), None),
        Progress::SecondDigit(first) => {
            (Progress::Between, Some(16 * first + value_of_digit(byte)))
        }
    }
}

/// The value of a hexadecimal digit, and 0 for any other byte.
fn value_of_digit(digit: u8) -> u8
    ensures within { result < 16 }
    ensures value { result ≡ hex_value digit }
{
    match digit {
        b'0'..=b'9' => digit - b'0',
        b'a'..=b'f' => digit - b'a' + 10,
        _ => 0,
    }
}
