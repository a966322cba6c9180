//! How a server stands at a place of its dual.

ghost use Rattle.std.specs.Prelude.{◌≡◌, IfOk};
ghost use Rattle.dual_step.specs.State.{standing_of};
ghost use Rattle.itree_data.specs.Standing.{at_node};

use spec_model::Memory;
use spec_model::config::{Pair, Value};
use spec_model::copy::copy_of;
use spec_model::list::{Bytes, List};
use std::alloc::Global;

/// How a server stands: its place, which is the number of a node and, at a look-up, the number of pairs compared, otherwise 0; the
/// registers and tables by their numbers, and the locals by their slots; and for each connection the messages sent and not
/// received yet, each as the list of its pieces. Definition: own.
#[derive(Debug, Drop)]
pub struct State {
    pub node: usize,
    pub compared: usize,
    pub registers: List<Value>,
    pub tables: List<List<Pair>>,
    pub locals: List<Value>,
    pub pending: List<List<List<Bytes>>>,
}

impl State {
    /// An equal state.
    pub fn copy(&self, alloc: Global) -> Result<State, Memory>
        ensures { IfOk result (λ copy. copy ≡ self.now) }
    {
        Ok(State {
            node: self.node,
            compared: self.compared,
            registers: copy_of(alloc, self.registers.as_slice())?,
            tables: copy_of_tables(alloc, self.tables.as_slice())?,
            locals: copy_of(alloc, self.locals.as_slice())?,
            pending: copy_of(alloc, self.pending.as_slice())?,
        })
    }

    /// The state at another node, where nothing is compared yet.
    pub fn at_node(self, node: usize) -> State
        ensures { standing_of result ≡ at_node (standing_of self) node }
    {
        State {
            node,
            compared: 0,
            ..self
        }
    }
}

/// Tables of equal pairs.
pub fn copy_of_tables(alloc: Global, tables: &[List<Pair>]) -> Result<List<List<Pair>>, Memory>
    ensures { IfOk result (λ copy. copy ≡ tables.now) }
{
    let mut copy = List::new(alloc);
    for pairs in tables {
        copy.push(copy_of(alloc, pairs.as_slice())?)?;
    }
    Ok(copy)
}
