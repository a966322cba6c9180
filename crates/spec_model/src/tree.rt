//! The tree of a specification. A place is the number of a byte in the specification's text, from 0.

use crate::event::Shape;
use crate::list::{Bytes, List};
use sqlite_items::Items;

/// A specification: a program that a server may follow.
#[derive(Debug, Drop)]
pub struct Spec {
    pub shape: Shape,
    /// The place of the clause `frame`.
    pub frame_at: usize,
    /// The place of the clause `conns`.
    pub conns_at: usize,
    pub decls: List<Decl>,
    /// What is done once, before the loop.
    pub start: Option<Block>,
    /// What the loop repeats.
    pub body: Block,
}

/// Statements between braces. Its place is that of `start` or `loop` for theirs, that of the `if` or `get` for
/// an `else` that is not written, and that of the opening brace for every other.
#[cycle(tree)]
#[derive(Debug, Drop)]
pub struct Block {
    pub at: usize,
    pub stmts: Items<Stmt>,
}

/// A register with its first value, or a table, which begins with no pairs.
#[derive(Debug, Drop)]
pub struct Decl {
    pub at: usize,
    pub name: Bytes,
    pub first: First,
}

/// What a declaration declares.
#[derive(Debug, Drop)]
pub enum First {
    Text(Bytes),
    Num(u64),
    Conn(u64),
    Table,
}

/// A statement and its place.
#[cycle(tree)]
#[derive(Debug, Drop)]
pub struct Stmt {
    pub at: usize,
    pub kind: Kind,
}

/// What a statement does.
#[cycle(tree)]
#[derive(Debug, Drop)]
pub enum Kind {
    /// Takes a message, and goes on in the first case that fits it.
    Recv {
        chan: Chan,
        cases: Items<Case>,
        other: Bytes,
        rest: Block,
    },
    /// Sends the parts, joined.
    Send {
        conn: Expr,
        parts: List<Expr>,
    },
    /// Binds a name to any text of that length over that alphabet.
    Pick {
        name: Bytes,
        len: u64,
        alphabet: Alphabet,
    },
    /// Assigns a value, a sum or a difference to a register.
    Assign {
        name: Bytes,
        left: Expr,
        tail: Option<(Sign, Expr)>,
    },
    /// Goes on in the first block where the condition holds, and in the second where it does not.
    If {
        cond: Cond,
        yes: Block,
        no: Block,
    },
    /// Goes on in any one of the arms.
    Either {
        arms: Items<Block>,
    },
    /// Goes on only where the condition holds.
    Assume {
        cond: Cond,
    },
    /// Gives a key of a table a value.
    Put {
        table: Bytes,
        key: Expr,
        value: Expr,
    },
    /// Looks a key up, and binds its value in the first block; without the key goes on in the second.
    Lookup {
        table: Bytes,
        key: Expr,
        name: Bytes,
        found: Block,
        missing: Block,
    },
    /// Removes a key from a table.
    Delete {
        table: Bytes,
        key: Expr,
    },
}

/// From which connection a message is taken.
#[derive(Debug, Drop)]
pub enum Chan {
    /// Any, and the name is bound to it.
    Bind(Bytes),
    /// The one that is this value.
    From(Expr),
}

/// A pattern, and what is done where a message fits it.
#[cycle(tree)]
#[derive(Debug, Drop)]
pub struct Case {
    pub items: List<Item>,
    pub block: Block,
}

/// A part of a pattern.
#[derive(Debug, Drop)]
pub enum Item {
    /// Takes its own bytes.
    Lit(Bytes),
    /// Takes what its kind says, and binds a name to it.
    Hole(Bytes, HoleKind),
}

/// What a hole of a pattern takes.
#[derive(Clone, Copy, Debug, PartialEq, Eq)]
pub enum HoleKind {
    /// The longest run of one or more bytes above 0x20.
    Word,
    /// The longest run of digits, as a number: 1 to 20 digits, without a leading zero unless it is `0`, and at most
    /// the greatest u64.
    Num,
    /// All that is left, also nothing.
    Rest,
}

/// A written value: a text, a number, or a name.
#[derive(Debug, Drop)]
pub enum Expr {
    Text(Bytes),
    Num(u64),
    Name(Bytes),
}

/// A comparison of two values.
#[derive(Debug, Drop)]
pub struct Cond {
    pub left: Expr,
    pub op: Op,
    pub right: Expr,
}

/// How two values are compared.
#[derive(Clone, Copy, Debug, PartialEq, Eq)]
pub enum Op {
    /// `==`
    Same,
    /// `!=`
    Other,
    /// `<`
    Less,
}

/// A sum or a difference.
#[derive(Clone, Copy, Debug, PartialEq, Eq)]
pub enum Sign {
    Plus,
    Minus,
}

/// The characters of a pick. `Hex` is 0-9 and a-f; `Alnum` is 0-9, A-Z and a-z; `Any` is every byte, and in `line`
/// framing every byte but LF.
#[derive(Clone, Copy, Debug, PartialEq, Eq)]
pub enum Alphabet {
    Hex,
    Alnum,
    Any,
}
