//! The lock, and how its seats are given and taken back.
ghost use Rattle.std.specs.Prelude.{◌≡◌, ◌+◌, [], ◌∷◌, ◌++◌, length, IfOk, IsTrue};
ghost use Rattle.turn_lock.specs.Places.{BeginsWith, IsSpelledBy};
ghost use Rattle.turn_lock.specs.Views.{longer};
ghost use Rattle.turn_lock.specs.Seats.{IsIdleSeatOf, first_seat, another_seat};

mod turns;

use crate::listed::Listed;
use crate::rule::{Compare, Give, OneHistory, TakeOver};
use crate::seat::Seat;
use crate::view::View;
use atomic_table::{Refused, Table};
use std::alloc::{AllocError, Global};
use std::marker::Model;
use std::snapshot::Snapshot;
use std::sync::atomic::AtomicU64;

/// A value that one seat at a time has, for a turn, and whose list grows by at most one entry a turn.
/// Contracts see which lock it is, and the fixed part that its value keeps. Definition: own.
#[derive(Drop)]
pub struct TurnLock<V: Listed> {
    // Word 0 is twice the number of entries, and one more while a seat has the turn. Slot 0 has the
    // value.
    table: Table<Option<V>, View<V::Entry, V::Fixed>, Snapshot<V>, OneHistory<V>, Global>,
    // How many threads may be asleep until the word changes.
    sleepers: AtomicU64,
}

impl<V: Listed> Model for TurnLock<V> {
    ghost use Rattle.std.specs.Prelude.{◌≡◌};
    ghost use Rattle.turn_lock.specs.Seats.{LockName};

    ghost Value = { LockName V.Fixed };

    ghost view = { λ lock. record { table = lock.table.shared.table_id; fixed = V.fixed lock.table.shared.key.value } };

    ghost invariant = { λ lock. (lock.table.shared.table_id.words ≡ 1) × (lock.table.shared.table_id.slots ≡ 1) };
}

impl<V: Listed> TurnLock<V> {
    /// A lock over a value that stands for no entries, and its first seat. The only error is want of
    /// memory, and the value is then given up.
    pub fn open(alloc: Global, value: V) -> Result<(TurnLock<V>, Seat<V>), AllocError>
        requires { V.entries value ≡ [] }
        ensures { IfOk result (λ made. (made.0.fixed ≡ V.fixed value) × (made.1 ≡ first_seat made.0)) }
    {
        let about = Snapshot::of(&value);
        let mut slots = Vec::with_capacity(alloc, 1)?;
        slots.push_reserved(Some(value));
        match Table::new(alloc, &[0], slots, &about) {
            Ok((table, at)) => Ok((
                TurnLock {
                    table,
                    sleepers: AtomicU64::new(0),
                },
                Seat { at },
            )),
            Err(Refused { slots: _ }) => Err(AllocError),
        }
    }

    /// Another seat, which has no entries of its own. It takes no memory.
    pub fn split(&self, seat: &mut Seat<V>) -> Seat<V>
        requires seat { IsIdleSeatOf self.now seat.old }
        requires first { IsTrue seat.old.is_first }
        ensures given { seat.new ≡ record seat.old { gave = seat.old.gave + 1 } }
        ensures new { result ≡ another_seat self.now }
    {
        Seat {
            at: self.table.shared.split_seat::<Give>(&mut seat.at),
        }
    }

    /// Gives another seat back to the first, which keeps its entries as one more list. It takes no
    /// memory.
    pub fn join(&self, seat: &mut Seat<V>, other: Seat<V>)
        requires seat { IsIdleSeatOf self.now seat.old }
        requires first { IsTrue seat.old.is_first }
        requires other { IsIdleSeatOf self.now other }
        ensures taken_over { let joined = seat.old.joined ++ other.own ∷ [] in
            let front = longer seat.old.front other.front in
            seat.new ≡ record seat.old { joined = joined; front = front } }
        ensures front { BeginsWith seat.new.front seat.old.front × BeginsWith seat.new.front other.front }
    {
        let Seat { at: other } = other;
        self.table.shared.join_seat::<TakeOver>(&mut seat.at, other);
        self.table.shared.load::<Compare>(&mut seat.at, 0);
    }

    /// The value, once the first seat took over as many seats as it gave. It takes no memory.
    pub fn close(self, seat: Seat<V>) -> V
        requires seat { IsIdleSeatOf self seat }
        requires first { IsTrue seat.is_first }
        requires whole { seat.gave ≡ length seat.joined }
        ensures fixed { V.fixed result ≡ self.fixed }
        ensures front { BeginsWith (V.entries result) seat.front }
        ensures entries { IsSpelledBy (V.entries result) (seat.own ∷ seat.joined) }
    {
        let TurnLock { table, sleepers: _ } = self;
        let Seat { at } = seat;
        let mut closed = table.close_with(at);
        let value = closed.take(0).unwrap();
        closed.free();
        value
    }
}
