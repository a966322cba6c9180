//! The nodes of a tree.

use spec_model::list::{Bytes, List};
use spec_model::tree::{Alphabet, HoleKind, Op, Sign};

/// A value that a node uses. Registers are numbered in the order in which they are declared, and the locals in scope by
/// their slots.
#[derive(Debug, Drop)]
pub enum Val {
    Text(Bytes),
    Num(u64),
    /// A connection, by its number, where a send or a `recv` names it. In a condition, a value that is assigned, and a
    /// part that is sent, a written connection is a `Num`: both stand for the same number.
    Conn(u64),
    Register(u16),
    Local(u16),
}

/// What is done at a place of a tree, and the numbers of the nodes that are next. Slots are given as on a stack, in the order
/// in which names come into scope: one that is bound is the first that is not in scope, and those from it on are bound no
/// more. Each slot that is read is in scope at the node. Definition: own, after Xia and others, 2020, in outline.
#[derive(Debug, Drop)]
pub enum Node {
    /// Takes a message from any connection or from a named one, binds `conn` to the connection, and goes on in the first case
    /// that fits the message; where none does, binds `other` to the message and goes on at `next`.
    Take {
        from: Option<Val>,
        conn: Option<u16>,
        cases: List<TakeCase>,
        other: u16,
        next: usize,
    },
    /// Sends the parts, joined.
    Send {
        conn: Val,
        parts: List<Val>,
        next: usize,
    },
    /// Binds a slot to any text of that length over that alphabet.
    Choose {
        slot: u16,
        len: u8,
        alphabet: Alphabet,
        next: usize,
    },
    /// Goes on at `yes` where the test says yes, and at `no` where it says no; without a `no` it must say yes.
    Branch {
        test: Check,
        yes: usize,
        no: Option<usize>,
    },
    /// Goes on at any one of the arms.
    Fork {
        arms: List<usize>,
    },
    /// Changes what is stored, silently. The next node has a lower number.
    Store {
        what: Change,
        next: usize,
    },
    /// Node 0 alone, the end of `start` and of each turn of the loop: the loop goes on at its first node.
    Back {
        next: usize,
    },
}

/// A pattern, and where a tree goes on with a message that fits it.
#[derive(Debug, Drop)]
pub struct TakeCase {
    pub items: List<Slotted>,
    pub next: usize,
}

/// A part of a pattern.
#[derive(Debug, Drop)]
pub enum Slotted {
    /// Takes its own bytes.
    Lit(Bytes),
    /// Takes what its kind says, and binds a slot to it.
    Hole(u16, HoleKind),
}

/// What a branch asks.
#[derive(Debug, Drop)]
pub enum Check {
    /// How two values compare.
    Cond { left: Val, op: Op, right: Val },
    /// Whether the key is that of the next pair of a table. While pairs are left and unequal the tree stays at the node. At an
    /// equal pair it goes on at `yes`, which is a change, and after the last pair at `no`, which has a lower number, without a test
    /// of its own.
    Scan { table: u16, key: Val },
}

/// What is stored.
#[derive(Debug, Drop)]
pub enum Change {
    /// A register gets a value, a sum or a difference.
    Assign {
        register: u16,
        left: Val,
        tail: Option<(Sign, Val)>,
    },
    /// A slot is bound to the value of the pair that was found.
    Bind {
        slot: u16,
        table: u16,
    },
    /// The pair that was found gets a new value.
    Renew {
        table: u16,
        value: Val,
    },
    /// A pair is put to the front; a 257th at the end is dropped.
    Add {
        table: u16,
        key: Val,
        value: Val,
    },
    /// The pair that was found is removed.
    Remove {
        table: u16,
    },
}
