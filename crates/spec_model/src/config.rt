//! The state of a server between two of its events.

use crate::list::{Bytes, List};
use crate::tree::Stmt;

/// What a name stands for. A connection is the number that it has.
#[derive(Debug, Drop)]
pub enum Value {
    Text(Bytes),
    Number(u64),
}

/// A name and what it stands for.
#[derive(Debug, Drop)]
pub struct Binding {
    pub name: Bytes,
    pub value: Value,
}

/// A key of a table and its value.
#[derive(Debug, Drop)]
pub struct Pair {
    pub key: Bytes,
    pub value: Bytes,
}

/// A table: its pairs, the newest first.
#[derive(Debug, Drop)]
pub struct Table {
    pub name: Bytes,
    pub pairs: List<Pair>,
}

/// Something still to do.
#[derive(Debug, Drop)]
pub enum Task {
    /// A statement. Of a look-up this many pairs have been compared; of any other statement none.
    Do(Stmt, usize),
    /// The end of a block: all but the first so many locals are forgotten.
    Forget(usize),
}

/// A configuration: what is still to do, what the names stand for, and what passed on each connection. With
/// nothing to do the loop begins anew. Definition: own, after the machines that run interaction trees.
#[derive(Debug, Drop)]
pub struct Config {
    pub todo: List<Task>,
    pub registers: List<Binding>,
    pub tables: List<Table>,
    /// The locals in scope, in the order in which they were bound.
    pub locals: List<Binding>,
    /// For each connection the messages taken.
    pub taken: List<List<Bytes>>,
    /// For each connection the messages sent, each as the list of its parts' texts.
    pub sent: List<List<List<Bytes>>>,
}
