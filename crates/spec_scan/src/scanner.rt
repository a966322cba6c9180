//! Reads a text byte by byte.

ghost use Rattle.std.specs.Prelude.{◌≡◌, ◌+◌, ◌*◌, ◌<◌, ◌++◌, ◌∷◌, [], IfOk, option_map, true};
ghost use Rattle.spec_model.specs.Spelling.{escaped_byte, is_blank, is_comment_byte, stands_for_itself};
ghost use Rattle.spec_scan.specs.Digits.{is_part};
ghost use Rattle.spec_scan.specs.Scan.{between, digit_of, finish, first_state, only_if, sign_of, state, step, step_in, take_run};
ghost use Rattle.spec_scan.specs.View.{goals_of, placed_of, state_of, whole_state};
ghost use Rattle.spec_scan.specs.declared.part.Part.TheVariants.{Between, Comment, Run, Inside, Escape, FirstDigit, SecondDigit, Equal, Bang};

use crate::goal::{Class, Goal};
use crate::part::Part;
use crate::run::{is_run_byte, opens, token_of_run};
use crate::state::{Scanner, Whole};
use spec_model::list::{Bytes, List};
use spec_model::token::{Placed, Punctuation, Token};
use std::alloc::{AllocError, Global};

impl Scanner {
    /// Before the first byte.
    pub fn new(alloc: Global) -> Result<Scanner, AllocError>
        ensures { IfOk result (λ scanner. state_of scanner ≡ first_state) }
    {
        Ok(Scanner {
            part: Part::Between,
            whole: Whole {
                goals: Vec::from_slice(alloc, &[Goal::Spec])?,
                placed: Vec::new(alloc),
                depth: 0,
            },
        })
    }

    /// Behind one byte more, where a specification can go on so.
    pub fn step(self, alloc: Global, place: usize, byte: u8) -> Result<Option<Scanner>, AllocError>
        ensures { IfOk result (λ next. option_map state_of next ≡ step place (state_of self) byte) }
    {
        let Scanner { part, whole } = self;
        match part {
            Part::Between => between(alloc, whole, place, byte),
            Part::Comment => Ok(in_comment(whole, byte)),
            Part::Run { at, bytes } => in_run(alloc, whole, at, bytes, place, byte),
            Part::Inside { at, bytes } => in_text(whole, at, bytes, byte),
            Part::Escape { at, bytes } => in_escape(whole, at, bytes, byte),
            Part::FirstDigit { at, bytes } => Ok(at_first_digit(whole, at, bytes, byte)),
            Part::SecondDigit { at, bytes, high } => at_second_digit(whole, at, bytes, high, byte),
            Part::Equal { at } => behind_equal(alloc, whole, at, place, byte),
            Part::Bang { at } => behind_bang(whole, at, byte),
        }
    }

    /// The tokens of the text, where it may end here.
    pub fn finish(self) -> Result<Option<Vec<Placed>>, AllocError>
        ensures { IfOk result (λ found. option_map (λ placed. placed.items) found ≡ finish (state_of self)) }
    {
        let Scanner { part, whole } = self;
        let whole = match part {
            Part::Between | Part::Comment => Some(whole),
            Part::Run { at, bytes } => take_run(whole, at, bytes)?,
            Part::Equal { at } => whole.take(at, Token::Sign(Punctuation::Becomes))?,
            _ => None,
        };
        match whole {
            Some(whole) => Ok(whole.done()),
            None => Ok(None),
        }
    }
}

/// This part, where the test passes.
fn only_if(test: bool, part: Part, whole: Whole) -> Option<Scanner>
    requires { is_part part ≡ true }
    ensures { option_map state_of result ≡ only_if test (state part (goals_of whole) (placed_of whole)) }
{
    if test {
        Some(Scanner { part, whole })
    } else {
        None
    }
}

/// Behind a whole token.
fn behind(whole: Option<Whole>) -> Option<Scanner>
    ensures { option_map state_of result ≡ option_map whole_state whole }
{
    match whole {
        Some(whole) => Some(Scanner {
            part: Part::Between,
            whole,
        }),
        None => None,
    }
}

/// A space, a tab, CR or LF.
fn is_blank(byte: u8) -> bool
    ensures { result ≡ is_blank byte }
{
    byte == b' ' || byte == b'\t' || byte == b'\r' || byte == b'\n'
}

/// A sign of one byte with which no other begins.
fn sign_of(byte: u8) -> Option<Punctuation>
    ensures { result ≡ sign_of byte }
{
    match byte {
        b'{' => Some(Punctuation::Open),
        b'}' => Some(Punctuation::Close),
        b':' => Some(Punctuation::Colon),
        b'<' => Some(Punctuation::Less),
        b'+' => Some(Punctuation::Plus),
        b'-' => Some(Punctuation::Minus),
        _ => None,
    }
}

/// A byte between tokens.
fn between(
    alloc: Global,
    whole: Whole,
    place: usize,
    byte: u8,
) -> Result<Option<Scanner>, AllocError>
    ensures { IfOk result (λ next. option_map state_of next ≡ between (goals_of whole) (placed_of whole) place byte) }
{
    if is_run_byte(byte) {
        let opened = opens(&whole.goals, &[byte]);
        let bytes = List::from_slice(alloc, &[byte])?;
        Ok(only_if(opened, Part::Run { at: place, bytes }, whole))
    } else if is_blank(byte) {
        Ok(Some(Scanner {
            part: Part::Between,
            whole,
        }))
    } else if byte == b'#' {
        Ok(Some(Scanner {
            part: Part::Comment,
            whole,
        }))
    } else if byte == b'"' {
        let opened = whole.takes(Class::Text);
        Ok(only_if(
            opened,
            Part::Inside {
                at: place,
                bytes: List::new(alloc),
            },
            whole,
        ))
    } else if byte == b'=' {
        let opened = whole.takes(Class::Sign(Punctuation::Becomes))
            || whole.takes(Class::Sign(Punctuation::Same));
        Ok(only_if(opened, Part::Equal { at: place }, whole))
    } else if byte == b'!' {
        let opened = whole.takes(Class::Sign(Punctuation::Other));
        Ok(only_if(opened, Part::Bang { at: place }, whole))
    } else if let Some(sign) = sign_of(byte) {
        Ok(behind(whole.take(place, Token::Sign(sign))?))
    } else {
        Ok(None)
    }
}

/// A byte of a comment.
fn in_comment(whole: Whole, byte: u8) -> Option<Scanner>
    ensures { option_map state_of result ≡ step_in Comment (goals_of whole) (placed_of whole) 0 byte }
{
    let part = if byte == b'\n' {
        Part::Between
    } else {
        Part::Comment
    };
    Some(Scanner { part, whole })
}

/// Behind a whole run.
fn take_run(whole: Whole, at: usize, run: Bytes) -> Result<Option<Whole>, AllocError>
    ensures { IfOk result (λ next. option_map whole_state next ≡ take_run (goals_of whole) (placed_of whole) at run) }
{
    match token_of_run(run) {
        Some(token) => whole.take(at, token),
        None => Ok(None),
    }
}

/// A byte behind a run.
fn in_run(
    alloc: Global,
    whole: Whole,
    at: usize,
    run: Bytes,
    place: usize,
    byte: u8,
) -> Result<Option<Scanner>, AllocError>
    ensures { IfOk result (λ next. option_map state_of next ≡ step_in (Run at run) (goals_of whole) (placed_of whole) place byte) }
{
    if is_run_byte(byte) {
        let mut bytes = run;
        bytes.push(byte)?;
        let opened = opens(&whole.goals, bytes.as_slice());
        Ok(only_if(opened, Part::Run { at, bytes }, whole))
    } else {
        match take_run(whole, at, run)? {
            Some(whole) => between(alloc, whole, place, byte),
            None => Ok(None),
        }
    }
}

/// Whether a byte of a string stands for itself.
fn stands_for_itself(byte: u8) -> bool
    ensures { result ≡ stands_for_itself byte }
{
    matches!(byte, b' '..=b'~') && byte != b'"' && byte != b'\\' || byte >= 0x80
}

/// A byte of a string.
fn in_text(whole: Whole, at: usize, text: Bytes, byte: u8) -> Result<Option<Scanner>, AllocError>
    ensures { IfOk result (λ next. option_map state_of next ≡ step_in (Inside at text) (goals_of whole) (placed_of whole) 0 byte) }
{
    if byte == b'"' {
        Ok(behind(whole.take(at, Token::Text(text))?))
    } else if byte == b'\\' {
        Ok(Some(Scanner {
            part: Part::Escape { at, bytes: text },
            whole,
        }))
    } else {
        let mut bytes = text;
        bytes.push(byte)?;
        Ok(only_if(stands_for_itself(byte), Part::Inside { at, bytes }, whole))
    }
}

/// What `\` and a byte stand for.
fn escaped_byte(byte: u8) -> Option<u8>
    ensures { result ≡ escaped_byte byte }
{
    match byte {
        b'"' => Some(b'"'),
        b'\\' => Some(b'\\'),
        b'n' => Some(b'\n'),
        b'r' => Some(b'\r'),
        b't' => Some(b'\t'),
        _ => None,
    }
}

/// A byte behind a `\`.
fn in_escape(whole: Whole, at: usize, text: Bytes, byte: u8) -> Result<Option<Scanner>, AllocError>
    ensures { IfOk result (λ next. option_map state_of next ≡ step_in (Escape at text) (goals_of whole) (placed_of whole) 0 byte) }
{
    if byte == b'x' {
        Ok(Some(Scanner {
            part: Part::FirstDigit { at, bytes: text },
            whole,
        }))
    } else {
        match escaped_byte(byte) {
            Some(meant) => {
                let mut bytes = text;
                bytes.push(meant)?;
                Ok(Some(Scanner {
                    part: Part::Inside { at, bytes },
                    whole,
                }))
            }
            None => Ok(None),
        }
    }
}

/// The value of a hexadecimal digit, lower case.
fn digit_of(byte: u8) -> Option<u8>
    ensures { result ≡ digit_of byte }
{
    match byte {
        b'0'..=b'9' => Some(byte - b'0'),
        b'a'..=b'f' => Some(byte - b'a' + 10),
        _ => None,
    }
}

/// A byte behind a `\x`.
fn at_first_digit(whole: Whole, at: usize, text: Bytes, byte: u8) -> Option<Scanner>
    ensures { option_map state_of result ≡ step_in (FirstDigit at text) (goals_of whole) (placed_of whole) 0 byte }
{
    match digit_of(byte) {
        Some(high) => Some(Scanner {
            part: Part::SecondDigit {
                at,
                bytes: text,
                high,
            },
            whole,
        }),
        None => None,
    }
}

/// A byte behind a `\x` and a digit of this value.
fn at_second_digit(
    whole: Whole,
    at: usize,
    text: Bytes,
    high: u8,
    byte: u8,
) -> Result<Option<Scanner>, AllocError>
    requires { high < 16 }
    ensures { IfOk result (λ next. option_map state_of next ≡ step_in (SecondDigit at text high) (goals_of whole) (placed_of whole) 0 byte) }
{
    match digit_of(byte) {
        Some(low) => {
            let mut bytes = text;
            bytes.push(16 * high + low)?;
            Ok(Some(Scanner {
                part: Part::Inside { at, bytes },
                whole,
            }))
        }
        None => Ok(None),
    }
}

/// A byte behind a `=`.
fn behind_equal(
    alloc: Global,
    whole: Whole,
    at: usize,
    place: usize,
    byte: u8,
) -> Result<Option<Scanner>, AllocError>
    ensures { IfOk result (λ next. option_map state_of next ≡ step_in (Equal at) (goals_of whole) (placed_of whole) place byte) }
{
    if byte == b'=' {
        return Ok(behind(whole.take(at, Token::Sign(Punctuation::Same))?));
    }
    match whole.take(at, Token::Sign(Punctuation::Becomes))? {
        Some(whole) => between(alloc, whole, place, byte),
        None => Ok(None),
    }
}

/// A byte behind a `!`.
fn behind_bang(whole: Whole, at: usize, byte: u8) -> Result<Option<Scanner>, AllocError>
    ensures { IfOk result (λ next. option_map state_of next ≡ step_in (Bang at) (goals_of whole) (placed_of whole) 0 byte) }
{
    if byte == b'=' {
        Ok(behind(whole.take(at, Token::Sign(Punctuation::Other))?))
    } else {
        Ok(None)
    }
}
