//! The part of a token or comment that was read so far.

use spec_model::list::Bytes;

/// What the last byte that was read belongs to. `at` is the place where the token began.
#[derive(Drop)]
pub enum Part {
    /// Nothing that goes on.
    Between,
    Comment,
    /// A run of letters, digits and `_`.
    Run { at: usize, bytes: Bytes },
    /// A string. The bytes are those of its value so far.
    Inside { at: usize, bytes: Bytes },
    /// A string, behind a `\`.
    Escape { at: usize, bytes: Bytes },
    /// A string, behind a `\x`.
    FirstDigit { at: usize, bytes: Bytes },
    /// A string, behind a `\x` and a digit of this value.
    SecondDigit { at: usize, bytes: Bytes, high: u8 },
    /// `=`, which may be `==`.
    Equal { at: usize },
    /// `!`, which has to be `!=`.
    Bang { at: usize },
}
