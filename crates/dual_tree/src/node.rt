//! The nodes of a dual.

ghost use Rattle.std.specs.Prelude.{◌≡◌};
ghost use Rattle.dual_tree.specs.Dual.{mirrored};

use itree_data::node::{Change, Check, Node, TakeCase, Val};
use spec_model::list::List;
use spec_model::tree::Alphabet;

/// What a tester does or has to find out at a place of a dual, and the numbers of the nodes that are next. Each node mirrors
/// the node of its number in the tree. Definition: after Li, Pierce and Zdancewic, 2021, in outline.
#[derive(Debug, Drop)]
pub enum DualNode {
    /// Offers a message, on any connection or on a named one, where the tree takes it.
    Offer {
        from: Option<Val>,
        conn: Option<u16>,
        cases: List<TakeCase>,
        other: u16,
        next: usize,
    },
    /// Expects the parts, joined, where the tree sends them.
    Expect {
        conn: Val,
        parts: List<Val>,
        next: usize,
    },
    /// A text of that length over that alphabet is unknown, where the tree picks it.
    Fresh {
        slot: u16,
        len: u8,
        alphabet: Alphabet,
        next: usize,
    },
    /// Goes on by what the test says.
    Compare {
        test: Check,
        yes: usize,
        no: Option<usize>,
    },
    /// Goes on at each of the arms, where the tree goes on at one.
    Split {
        arms: List<usize>,
    },
    /// Changes what is stored, silently.
    Store {
        what: Change,
        next: usize,
    },
    /// The end of `start` and of each turn of the loop.
    Back {
        next: usize,
    },
}

/// The node that mirrors this one.
pub fn mirror(node: Node) -> DualNode
    ensures { mirrored result ≡ node }
{
    match node {
        Node::Take {
            from,
            conn,
            cases,
            other,
            next,
        } => DualNode::Offer {
            from,
            conn,
            cases,
            other,
            next,
        },
        Node::Send { conn, parts, next } => DualNode::Expect { conn, parts, next },
        Node::Choose {
            slot,
            len,
            alphabet,
            next,
        } => DualNode::Fresh {
            slot,
            len,
            alphabet,
            next,
        },
        Node::Branch { test, yes, no } => DualNode::Compare { test, yes, no },
        Node::Fork { arms } => DualNode::Split { arms },
        Node::Store { what, next } => DualNode::Store { what, next },
        Node::Back { next } => DualNode::Back { next },
    }
}
