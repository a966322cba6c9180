//! What a seat knows. No value of these types is made: they are for contracts and proofs alone.
use std::collections::LinkedList;

/// Whether a seat is the one that `open` gave, another one, or one that was joined away.
pub enum Role {
    First,
    Other,
    Spent,
}

/// An entry with its place in the list. Places are counted from 1.
pub struct Placed<E> {
    pub place: usize,
    pub entry: E,
}

/// What a seat knows of the lock.
pub struct View<E, F> {
    pub role: Role,
    /// The lock's fixed part, unless the seat is spent.
    pub fixed: Option<F>,
    /// The entries that the seat left, in its order.
    pub own: LinkedList<Placed<E>>,
    /// The own entries of each seat that it took over.
    pub joined: LinkedList<LinkedList<Placed<E>>>,
    /// The list as it stood when the seat last left a turn.
    pub front: LinkedList<E>,
    /// The front of the seat that it took over last.
    pub met: LinkedList<E>,
    /// The list that it found when it took the turn, while it holds the turn.
    pub found: Option<LinkedList<E>>,
    /// How many seats it gave.
    pub gave: u64,
}
