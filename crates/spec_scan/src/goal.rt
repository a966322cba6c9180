//! What a specification may go on with.

use spec_model::token::{Keyword, Punctuation};

/// A part of a specification that is still to be read. Those whose names stand in the plural, `Start`, `Tail` and `Else` may be empty.
#[derive(Clone, Copy)]
pub enum Goal {
    Spec,
    Framing,
    /// A number of the header, of which only 16 bits are kept.
    HeaderNumber,
    Conns,
    Decls,
    Start,
    Loop,
    Block,
    Stmts,
    Chan,
    Conn,
    Cases,
    Other,
    Item,
    Items,
    HoleKind,
    /// A part of a `send`.
    SendPart,
    SendParts,
    Alphabet,
    Atom,
    Comparison,
    Tail,
    /// An arm behind `or`.
    Arm,
    Arms,
    Else,
    Name,
    Number,
    Text,
    Open,
    Close,
    Colon,
    Becomes,
}

/// What the grammar tells tokens apart by.
#[derive(Clone, Copy)]
pub enum Class {
    Keyword(Keyword),
    Name,
    Number,
    Text,
    Sign(Punctuation),
}
