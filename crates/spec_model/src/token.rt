//! The tokens of a specification's text.

ghost use Rattle.std.specs.Prelude.{◌≡◌};
ghost use Rattle.spec_model.specs.Canonical.{keyword_text, sign_text};

use crate::list::Bytes;

/// A word with a meaning of its own, which is no name.
#[derive(Clone, Copy, Debug, PartialEq, Eq)]
pub enum Keyword {
    Frame,
    Line,
    Len16,
    Conns,
    Text,
    Num,
    Conn,
    Table,
    Start,
    Loop,
    Recv,
    From,
    Case,
    Other,
    Send,
    Pick,
    Hex,
    Alnum,
    Any,
    Set,
    If,
    Else,
    Either,
    Or,
    Where,
    Put,
    Get,
    Del,
    Word,
    Rest,
}

impl Keyword {
    /// The bytes of the word.
    pub fn spelling(self) -> &'static [u8]
        ensures { result.now ≡ keyword_text self }
    {
        match self {
            Keyword::Frame => b"frame",
            Keyword::Line => b"line",
            Keyword::Len16 => b"len16",
            Keyword::Conns => b"conns",
            Keyword::Text => b"text",
            Keyword::Num => b"num",
            Keyword::Conn => b"conn",
            Keyword::Table => b"table",
            Keyword::Start => b"start",
            Keyword::Loop => b"loop",
            Keyword::Recv => b"recv",
            Keyword::From => b"from",
            Keyword::Case => b"case",
            Keyword::Other => b"other",
            Keyword::Send => b"send",
            Keyword::Pick => b"pick",
            Keyword::Hex => b"hex",
            Keyword::Alnum => b"alnum",
            Keyword::Any => b"any",
            Keyword::Set => b"set",
            Keyword::If => b"if",
            Keyword::Else => b"else",
            Keyword::Either => b"either",
            Keyword::Or => b"or",
            Keyword::Where => b"where",
            Keyword::Put => b"put",
            Keyword::Get => b"get",
            Keyword::Del => b"del",
            Keyword::Word => b"word",
            Keyword::Rest => b"rest",
        }
    }
}

/// A sign.
#[derive(Clone, Copy, Debug, PartialEq, Eq)]
pub enum Punctuation {
    /// `{`
    Open,
    /// `}`
    Close,
    /// `:`
    Colon,
    /// `=`
    Becomes,
    /// `==`
    Same,
    /// `!=`
    Other,
    /// `<`
    Less,
    /// `+`
    Plus,
    /// `-`
    Minus,
}

impl Punctuation {
    /// The bytes of the sign.
    pub fn spelling(self) -> &'static [u8]
        ensures { result.now ≡ sign_text self }
    {
        match self {
            Punctuation::Open => b"{",
            Punctuation::Close => b"}",
            Punctuation::Colon => b":",
            Punctuation::Becomes => b"=",
            Punctuation::Same => b"==",
            Punctuation::Other => b"!=",
            Punctuation::Less => b"<",
            Punctuation::Plus => b"+",
            Punctuation::Minus => b"-",
        }
    }
}

/// A token. Definition: own.
#[derive(Debug, Drop)]
pub enum Token {
    Keyword(Keyword),
    Name(Bytes),
    Number(u64),
    Text(Bytes),
    Sign(Punctuation),
}

/// A token and the place of its first byte. Definition: own.
#[derive(Debug, Drop)]
pub struct Placed {
    pub at: usize,
    pub token: Token,
}
