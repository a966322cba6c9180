//! The lines of a text.

ghost use Rattle.std.specs.Prelude.{◌≡◌, ◌≢◌, ◌<◌, ◌+◌, ◌^◌, ◌↔◌, ◌==◌, ◌++◌, IfErr, IfNone, IfOk, IfSome, IsTrue, List, option_map, position, ℕ};
ghost use Rattle.exchange_text.specs.LooseReading.{split_once};
ghost use Rattle.exchange_text.specs.NextLine.{BeginsOtherwise, HasNoNextEvent};
ghost use Rattle.exchange_text.specs.Text.{HasLine, IsLine, ended, last_line};

use crate::refusal::TextRefusal;

/// What stands behind the first line of a text, which has to be this one.
pub fn behind_first_line<'a>(text: &'a [u8], first_line: &[u8]) -> Result<&'a [u8], TextRefusal>
    ensures behind { IfOk result (λ behind. HasLine text.now first_line.now behind.now) }
    ensures refused { IfErr result (BeginsOtherwise text.now first_line.now) }
{
    match next_line(text) {
        None => Err(TextRefusal::NoEnd(1)),
        Some((line, behind)) if line == first_line => Ok(behind),
        Some(_) => Err(TextRefusal::BadLine(1)),
    }
}

/// The line of the next event, and what stands behind it; `None` where the last line is next, and nothing stands behind that. The next
/// line has this number, and `is_full` says whether as many events have been read as a text may have.
pub fn next_event_line(
    rest: &[u8],
    number: usize,
    is_full: bool,
) -> Result<Option<(&[u8], &[u8])>, TextRefusal>
    requires { number + 1 < 2 ^ 64 }
    ensures event { IfOk result (λ next. IfSome next (λ parts. HasLine rest.now parts.0.now parts.1.now × (parts.0.now ≢ last_line) × ¬ IsTrue is_full)) }
    ensures end { IfOk result (λ next. IfNone next (rest.now ≡ ended last_line)) }
    ensures refused { IfErr result (HasNoNextEvent rest.now number is_full) }
{
    match next_line(rest) {
        None => Err(TextRefusal::NoEnd(number)),
        Some((line, behind)) if is_last_line(line) => {
            if behind.is_empty() {
                Ok(None)
            } else {
                Err(TextRefusal::BadLine(number + 1))
            }
        }
        Some(_) if is_full => Err(TextRefusal::Limit(number)),
        Some(next) => Ok(Some(next)),
    }
}

/// The first line, without the LF that ends it, and what stands behind it; `None` where no LF is left.
pub fn next_line(bytes: &[u8]) -> Option<(&[u8], &[u8])>
    ensures some { IfSome result (λ parts. HasLine bytes.now parts.0.now parts.1.now) }
    ensures none { IfNone result (IsLine bytes.now) }
{
    split_once(bytes, b'\n')
}

/// Whether a line is the last one of each text.
fn is_last_line(line: &[u8]) -> bool
    ensures { IsTrue result ↔ (line.now ≡ last_line) }
{
    line == b"end".as_slice()
}

/// What stands behind these first bytes, where they are the first.
pub fn behind_prefix<'a>(bytes: &'a [u8], prefix: &[u8]) -> Option<&'a [u8]>
    ensures some { IfSome result (λ behind. bytes.now ≡ prefix.now ++ behind.now) }
    ensures none { IfNone result ((behind : List ℕ) → bytes.now ≢ prefix.now ++ behind) }
{
    bytes.strip_prefix(prefix)
}

/// What stands before the first such byte, and behind it.
pub fn split_once(bytes: &[u8], byte: u8) -> Option<(&[u8], &[u8])>
    ensures { option_map (λ parts. (parts.0.now, parts.1.now)) result ≡ split_once byte bytes.now }
{
    let at = first_place(bytes, byte)?;
    Some((&bytes[..at], &bytes[at + 1..]))
}

/// The place of the first such byte, from 0.
fn first_place(bytes: &[u8], byte: u8) -> Option<usize>
    ensures { result ≡ position (λ other. other == byte) bytes.now }
{
    bytes.iter().position(|other| *other == byte)
}
