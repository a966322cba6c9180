//! What may be wrong with a specification.

ghost use Rattle.std.specs.Prelude.{◌≡◌};
ghost use Rattle.spec_rules.specs.Fault.{kind_number, limit_number};

/// What may be wrong with a specification. Definition: own.
#[derive(Clone, Copy, Debug, PartialEq, Eq)]
pub enum Fault {
    /// A name is used that is not known there.
    UnknownName,
    /// A name is declared or bound that is known there already, or is bound twice in one pattern.
    DoubleName,
    /// A name or a written value is not of the type that its place asks for.
    WrongType,
    /// The loop does not begin with a `recv`.
    NoTake,
    /// A `recv` stands in `start`.
    TakeInStart,
    /// A pick is shorter than 6 bytes or longer than 32.
    PickLength,
    /// More than 15 statements that compare may be passed up to the next `recv`.
    TooManyCompares,
    /// A limit is passed.
    Limit(Limit),
}

/// A limit of specifications.
#[derive(Clone, Copy, Debug, PartialEq, Eq)]
pub enum Limit {
    /// The limit of a message is 1 to 4,096 bytes.
    Message,
    /// There are 1 to 16 connections.
    Conns,
    /// A written connection is below the number of connections.
    WrittenConn,
    /// There are at most 64 registers.
    Registers,
    /// There are at most 8 tables.
    Tables,
    /// There are at most 1,024 statements.
    Stmts,
    /// A `recv` has at most 64 cases, `other` among them.
    Cases,
    /// A pattern has at most 16 items.
    Items,
    /// A `send` has at most 16 parts.
    Parts,
    /// An `either` has at most 16 arms.
    Arms,
    /// A written text has at most 4,096 bytes.
    Text,
}

impl Fault {
    /// The number by which reports name the kind of a fault, from 1 for an unknown name to 8 for a limit.
    pub fn number(self) -> u8
        ensures { result ≡ kind_number self }
    {
        match self {
            Fault::UnknownName => 1,
            Fault::DoubleName => 2,
            Fault::WrongType => 3,
            Fault::NoTake => 4,
            Fault::TakeInStart => 5,
            Fault::PickLength => 6,
            Fault::TooManyCompares => 7,
            Fault::Limit(_) => 8,
        }
    }
}

impl Limit {
    /// The number by which reports name a limit, from 1 for that of messages to 11 for that of texts.
    pub fn number(self) -> u8
        ensures { result ≡ limit_number self }
    {
        match self {
            Limit::Message => 1,
            Limit::Conns => 2,
            Limit::WrittenConn => 3,
            Limit::Registers => 4,
            Limit::Tables => 5,
            Limit::Stmts => 6,
            Limit::Cases => 7,
            Limit::Items => 8,
            Limit::Parts => 9,
            Limit::Arms => 10,
            Limit::Text => 11,
        }
    }
}
