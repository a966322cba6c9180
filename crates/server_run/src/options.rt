//! What a server may do next.

use spec_model::tree::Alphabet;

/// What a server may do next. Definition: own.
#[derive(Clone, Copy, Debug, PartialEq, Eq)]
pub enum Options {
    /// It takes a message from any connection, or from this one.
    Rest(Option<u16>),
    /// It picks a text of this length over this alphabet. A length above 255 is told as 255.
    Pick(u8, Alphabet),
    /// It chooses one of so many arms. A number above 65,535 is told as 65,535.
    Arms(u16),
    /// One event is possible, a test or a send.
    Forced,
    /// No event is possible.
    Stuck,
}
