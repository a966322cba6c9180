//! Whether two states are the same.

ghost use Rattle.std.specs.Prelude.{◌≡◌, ◌↔◌, IsTrue};

use crate::state::State;
use spec_model::config::{Pair, Value};
use spec_model::list::{Bytes, List};

/// Values that are compared as a whole.
trait Comparable {
    /// Whether both are equal. It takes no memory.
    fn is_same(&self, other: &Self) -> bool
        ensures { IsTrue result ↔ (self.now ≡ other.now) };
}

/// Whether both lists have equal items.
fn are_same<T: Comparable>(items: &[T], others: &[T]) -> bool
    ensures { IsTrue result ↔ (items.now ≡ others.now) }
{
    items.len() == others.len()
        && items
            .iter()
            .zip(others)
            .all(|(item, other)| item.is_same(other))
}

impl Comparable for Value {
    fn is_same(&self, other: &Value) -> bool {
        match (self, other) {
            (Value::Text(text), Value::Text(other_text)) => text == other_text,
            (Value::Number(number), Value::Number(other_number)) => number == other_number,
            _ => false,
        }
    }
}

impl Comparable for Pair {
    fn is_same(&self, other: &Pair) -> bool {
        self.key == other.key && self.value == other.value
    }
}

impl Comparable for List<Pair> {
    fn is_same(&self, other: &List<Pair>) -> bool {
        are_same(self.as_slice(), other.as_slice())
    }
}

impl Comparable for List<List<Bytes>> {
    fn is_same(&self, other: &List<List<Bytes>>) -> bool {
        self == other
    }
}

impl State {
    /// Whether both states are equal. It takes no memory.
    #[tactic(auto, using(crate::proofs::States::same_states))]
    pub fn is_same(&self, other: &State) -> bool
        ensures { IsTrue result ↔ (self.now ≡ other.now) }
    {
        self.is_at_same_place(other) && self.holds_same(other)
    }

    fn is_at_same_place(&self, other: &State) -> bool
        ensures { IsTrue result ↔ ((self.now.node ≡ other.now.node) × (self.now.compared ≡ other.now.compared)) }
    {
        self.node == other.node && self.compared == other.compared
    }

    fn holds_same(&self, other: &State) -> bool
        ensures { IsTrue result ↔ ((self.now.registers ≡ other.now.registers) × (self.now.locals ≡ other.now.locals)
            × (self.now.pending ≡ other.now.pending) × (self.now.tables ≡ other.now.tables)) }
    {
        are_same(self.registers.as_slice(), other.registers.as_slice())
            && are_same(self.locals.as_slice(), other.locals.as_slice())
            && are_same(self.pending.as_slice(), other.pending.as_slice())
            && are_same(self.tables.as_slice(), other.tables.as_slice())
    }
}
