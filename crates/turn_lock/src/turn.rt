//! Turns at a lock.
ghost use Rattle.std.specs.Prelude.{◌≡◌};
ghost use Rattle.std.specs.Borrow.{sem};
ghost use Rattle.turn_lock.specs.Lending.{LendsValue};

use std::marker::Model;

/// The turn at a lock, with the lock's value. It can't be dropped: it ends in `leave_with` or `leave`.
pub struct Turn<V> {
    pub(crate) value: V,
    pub(crate) count: u64,
}

impl<V> Model for Turn<V> {
    ghost use Rattle.std.specs.Prelude.{◌<◌, ◌^◌};
    ghost use Rattle.turn_lock.specs.Seats.{TurnState};

    ghost Value = { TurnState V };

    ghost view = { λ turn. record { value = turn.value; count = turn.count } };

    ghost invariant = { λ turn. turn.count < 2 ^ 63 };
}

impl<V> Turn<V> {
    /// The value under the lock.
    pub fn value(&mut self) -> &mut V
        ensures* writes_back { sem 𝓛 (LendsValue V.row self.entry result) }
        ensures value { result.now ≡ self.old.value }
    {
        &mut self.value
    }
}
