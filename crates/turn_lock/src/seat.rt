//! Seats at a lock.
use crate::listed::Listed;
use crate::view::View;
use std::marker::Model;

/// A seat at a lock, by which a thread takes turns. It has no bytes. Contracts see what its holder knows.
#[derive(Drop)]
pub struct Seat<V: Listed> {
    pub(crate) at: atomic_table::Seat<Option<V>, View<V::Entry, V::Fixed>>,
}

impl<V: Listed> Model for Seat<V> {
    ghost use Rattle.turn_lock.specs.Seats.{SeatState, state_of, IsInUse};

    ghost Value = { SeatState V.Entry V.Fixed };

    ghost view = { λ seat. state_of seat.at };

    ghost invariant = { λ seat. IsInUse seat.at };
}
