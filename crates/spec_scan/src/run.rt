//! Runs of letters, digits and `_`: numbers, keywords and names.

ghost use Rattle.std.specs.Prelude.{◌≡◌, ◌&&◌, bytes_eq, find, reverse};
ghost use Rattle.std.specs.List.{list_all, list_any};
ghost use Rattle.spec_model.specs.Canonical.{keyword_text};
ghost use Rattle.spec_model.specs.Pattern.{is_digit};
ghost use Rattle.spec_model.specs.Spelling.{is_number, is_run_byte, is_word};
ghost use Rattle.spec_scan.specs.Scan.{keywords, may_become, opens, token_of_run};

use crate::goal::{Class, Goal};
use crate::stack::takes;
use spec_model::cut::number_written;
use spec_model::list::Bytes;
use spec_model::token::{Keyword, Token};

/// The greatest number of bytes of a name.
const MAX_NAME: usize = 32;

/// Each keyword.
const KEYWORDS: [Keyword; 30] = [
    Keyword::Frame,
    Keyword::Line,
    Keyword::Len16,
    Keyword::Conns,
    Keyword::Text,
    Keyword::Num,
    Keyword::Conn,
    Keyword::Table,
    Keyword::Start,
    Keyword::Loop,
    Keyword::Recv,
    Keyword::From,
    Keyword::Case,
    Keyword::Other,
    Keyword::Send,
    Keyword::Pick,
    Keyword::Hex,
    Keyword::Alnum,
    Keyword::Any,
    Keyword::Set,
    Keyword::If,
    Keyword::Else,
    Keyword::Either,
    Keyword::Or,
    Keyword::Where,
    Keyword::Put,
    Keyword::Get,
    Keyword::Del,
    Keyword::Word,
    Keyword::Rest,
];

/// Whether a byte is a letter, a digit or `_`.
pub fn is_run_byte(byte: u8) -> bool
    ensures { result ≡ is_run_byte byte }
{
    byte.is_ascii_alphanumeric() || byte == b'_'
}

/// Whether all are digits.
fn are_digits(run: &[u8]) -> bool
    ensures { result ≡ list_all is_digit run.now }
{
    run.iter().all(|byte| byte.is_ascii_digit())
}

/// Whether all are letters, digits and `_`.
fn are_run_bytes(run: &[u8]) -> bool
    ensures { result ≡ list_all is_run_byte run.now }
{
    run.iter().all(|byte| is_run_byte(*byte))
}

/// Whether a run is a number: digits without a leading zero unless it is `0`, of at most the greatest u64.
fn is_number(run: &[u8]) -> bool
    ensures { result ≡ is_number run.now }
{
    match run {
        [] => false,
        [b'0', _, ..] => false,
        _ => are_digits(run) && number_written(run).is_some(),
    }
}

/// Whether a run is a keyword or a name: 1 to 32 letters, digits and `_`, the first of them no digit.
fn is_word(run: &[u8]) -> bool
    ensures { result ≡ is_word run.now }
{
    let all = are_run_bytes(run);
    match run {
        [] => false,
        [first, ..] => !first.is_ascii_digit() && all && run.len() <= MAX_NAME,
    }
}

/// The first of these keywords that a run is.
fn keyword_of(words: &[Keyword], run: &[u8]) -> Option<Keyword>
    ensures { result ≡ find (λ word. bytes_eq (keyword_text word) run.now) words.now }
{
    for word in words {
        if word.spelling() == run {
            return Some(*word);
        }
    }
    None
}

/// Whether a keyword that may come next begins so.
fn may_become(goals: &[Goal], run: &[u8], word: Keyword) -> bool
    ensures { result ≡ may_become (reverse goals.now) run.now word }
{
    word.spelling().starts_with(run) && takes(goals, Class::Keyword(word))
}

/// Whether a keyword begins so that may come next.
fn may_become_keyword(goals: &[Goal], run: &[u8]) -> bool
    ensures { result ≡ list_any (may_become (reverse goals.now) run.now) keywords }
{
    KEYWORDS.iter().any(|word| may_become(goals, run, *word))
}

/// Whether a run that may come next begins so. The next goal stands last.
pub fn opens(goals: &[Goal], run: &[u8]) -> bool
    ensures { result ≡ opens (reverse goals.now) run.now }
{
    is_number(run) && takes(goals, Class::Number)
        || is_word(run) && takes(goals, Class::Name)
        || may_become_keyword(goals, run)
}

/// The token that a whole run is, or `None` where it is none.
pub fn token_of_run(run: Bytes) -> Option<Token>
    ensures { result ≡ token_of_run run }
{
    if is_number(run.as_slice()) {
        return number_written(run.as_slice()).map(Token::Number);
    }
    match keyword_of(&KEYWORDS, run.as_slice()) {
        Some(word) => Some(Token::Keyword(word)),
        None if is_word(run.as_slice()) => Some(Token::Name(run)),
        None => None,
    }
}
