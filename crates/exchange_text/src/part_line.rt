//! Parts of a send in its line.

ghost use Rattle.std.specs.Prelude.{◌≡◌, ◌++◌, ◌≤◌, IfOk, List, OnOk, codes, decimal, false, flat_map, length};
ghost use Rattle.std.specs.List.{AllByRecursion};
ghost use Rattle.exchange_text.specs.LooseReading.{IsLegiblePart, next_number, part_first, piece_first, quotation_first, quoted_length};
ghost use Rattle.exchange_text.specs.ScriptText.{part_text, spaced_part};
ghost use Rattle.exchange_text.specs.declared.action.Part.{Part};

use crate::action::{MAX_PARTS, Part};
use crate::line::split_once;
use crate::token::{number_of, put_number};
use spec_model::Memory;
use spec_model::list::{Bytes, List};
use spec_model::quote::{loosely_unquoted, put_quotation};
use std::alloc::Global;

/// Puts parts at the end, each with a space before it.
pub fn put_parts(out: &mut Vec<u8>, parts: &[Part]) -> Result<(), Memory>
    ensures { OnOk result (out.new.items ≡ out.old.items ++ flat_map spaced_part parts.now) }
{
    for part in parts {
        out.push(b' ')?;
        put_part(out, part)?;
    }
    Ok(())
}

/// Puts a part at the end.
fn put_part(out: &mut Vec<u8>, part: &Part) -> Result<(), Memory>
    ensures { OnOk result (out.new.items ≡ out.old.items ++ part_text part.now) }
{
    match part {
        Part::Lit(text) => put_quotation(out, text.as_slice()),
        Part::Piece {
            receipt,
            start,
            len,
            fill,
        } => {
            out.extend_from_slice(b"piece ")?;
            put_spaced_number(out, *receipt)?;
            put_spaced_number(out, u32::from(*start))?;
            put_spaced_number(out, u32::from(*len))?;
            put_quotation(out, fill.as_slice())
        }
    }
}

/// Puts a number and a space at the end.
fn put_spaced_number(out: &mut Vec<u8>, number: u32) -> Result<(), Memory>
    ensures { OnOk result (out.new.items ≡ out.old.items ++ (decimal number ++ codes " ")) }
{
    put_number(out, number)?;
    out.extend_from_slice(b" ")
}

/// The parts, each with a space before it, of which these bytes are: at most `MAX_PARTS`. Of other bytes it makes anything.
pub fn parts_of(alloc: Global, bytes: &[u8]) -> Result<List<Part>, Memory>
    ensures { IfOk result (λ parts. (written : List Part) → length written ≤ MAX_PARTS → AllByRecursion IsLegiblePart written →
        flat_map spaced_part written ≡ bytes.now → parts ≡ written) }
{
    let mut parts = List::new(alloc);
    let mut rest = bytes;
    for _ in 0..MAX_PARTS {
        let [_, part @ ..] = rest else {
            return Ok(parts);
        };
        let (part, behind) = part_first(alloc, part)?;
        parts.push(part)?;
        rest = behind;
    }
    Ok(parts)
}

/// The first part, and what stands behind it.
fn part_first(alloc: Global, bytes: &[u8]) -> Result<(Part, &[u8]), Memory>
    ensures { IfOk result (λ first. (first.0, first.1.now) ≡ part_first bytes.now) }
{
    match bytes {
        [b'"', ..] => {
            let (text, behind) = quotation_first(alloc, bytes)?;
            Ok((Part::Lit(text), behind))
        }
        _ => piece_first(alloc, bytes),
    }
}

/// The first part, where it is a piece, and what stands behind it.
fn piece_first(alloc: Global, bytes: &[u8]) -> Result<(Part, &[u8]), Memory>
    ensures { IfOk result (λ first. (first.0, first.1.now) ≡ piece_first bytes.now) }
{
    let (_, numbers) = next_number(bytes);
    let (receipt, numbers) = next_number(numbers);
    let (start, numbers) = next_number(numbers);
    let (len, quotation) = next_number(numbers);
    let (fill, behind) = quotation_first(alloc, quotation)?;
    let piece = Part::Piece {
        receipt: u32::from(receipt),
        start,
        len,
        fill,
    };
    Ok((piece, behind))
}

/// The number before the first space, and what stands behind that; without a space 0, and nothing.
fn next_number(bytes: &[u8]) -> (u16, &[u8])
    ensures { (result.0, result.1.now) ≡ next_number bytes.now }
{
    match split_once(bytes, b' ') {
        None => (0, b"".as_slice()),
        Some((digits, behind)) => (number_of(digits), behind),
    }
}

/// The text of the quotation that stands first, and what stands behind it.
fn quotation_first(alloc: Global, bytes: &[u8]) -> Result<(Bytes, &[u8]), Memory>
    ensures { IfOk result (λ first. (first.0, first.1.now) ≡ quotation_first bytes.now) }
{
    let [_, quoted @ ..] = bytes else {
        return Ok((List::new(alloc), bytes));
    };
    let len = quoted_length(quoted);
    let text = loosely_unquoted(alloc, &quoted[..len])?;
    let behind = quoted.get(len + 1..).unwrap_or(b"".as_slice());
    Ok((List::from_vec(text), behind))
}

/// How many bytes stand before the quote that ends a quotation.
fn quoted_length(bytes: &[u8]) -> usize
    ensures length { result ≡ quoted_length false bytes.now }
    ensures within { result ≤ length bytes.now }
{
    let mut is_escaped = false;
    for (place, byte) in bytes.iter().enumerate() {
        if is_escaped {
            is_escaped = false;
        } else if *byte == b'"' {
            return place;
        } else {
            is_escaped = *byte == b'\\';
        }
    }
    bytes.len()
}
