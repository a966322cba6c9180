//! How turns are taken and left.
ghost use Rattle.std.specs.Prelude.{◌≡◌, ◌%◌, ◌^◌, ◌<◌, List, [], ◌∷◌, ◌++◌, length, IfSome, IfNone, Some, None};
ghost use Rattle.std.specs.Option.{ForSome};
ghost use Rattle.turn_lock.specs.Places.{BeginsWith};
ghost use Rattle.turn_lock.specs.Views.{placed};
ghost use Rattle.turn_lock.specs.Seats.{IsSeatOf, IsIdleSeatOf, HoldsTurn, IsTaken};

use super::TurnLock;
use crate::listed::Listed;
use crate::rule::{Add, Leave, Take};
use crate::seat::Seat;
use crate::turn::Turn;
use crate::view::View;
use std::hint::spin_loop;
use std::sync::Wait;
use std::sync::atomic::Ordering::SeqCst;

// Looks at the word before a thread that waits goes to sleep.
const SPINS: u32 = 100;

// A sleep watches the low 32 bits of the word.
const WATCHED: u64 = 0xffff_ffff;

impl<V: Listed> TurnLock<V> {
    /// Waits for the turn and takes it, asleep but for a moment at first. Nothing says that the turn
    /// ever comes, nor who comes first. It takes no memory.
    pub fn take<R: Wait>(&self, rt: &R, seat: &mut Seat<V>) -> Turn<V>
        requires seat { IsIdleSeatOf self.now seat.old }
        ensures holds { HoldsTurn seat.new result }
        ensures found { seat.new ≡ record seat.old { found = Some (V.entries result.value) } }
        ensures front { BeginsWith (V.entries result.value) seat.old.front }
        ensures fixed { V.fixed result.value ≡ self.now.fixed }
    {
        let mut spins = 0;
        for _ in rt.forever() {
            let seen = self.table.shared.peek(0);
            if seen % 2 == 0 {
                if let Some(turn) = self.try_take(seat, seen) {
                    return turn;
                }
            } else if spins < SPINS {
                spins += 1;
                spin_loop();
            } else {
                self.sleep_while(rt, seen);
            }
        }
        unreachable!()
    }

    // The turn, unless the word is no longer the one that was seen.
    fn try_take(&self, seat: &mut Seat<V>, seen: u64) -> Option<Turn<V>>
        requires seat { IsIdleSeatOf self.now seat.old }
        requires free { seen % 2 ≡ 0 }
        ensures taken { IfSome result (IsTaken V.entries V.fixed self.now seat.old seat.new) }
        ensures missed { IfNone result (seat.new ≡ seat.old) }
    {
        let shared = &self.table.shared;
        let found = shared.compare_exchange::<Take<V>>(&mut seat.at, 0, seen, seen + 1);
        if found != seen {
            return None;
        }
        let value = shared.exchange(&mut seat.at, 0, None).unwrap();
        Some(Turn {
            value,
            count: seen / 2,
        })
    }

    /// Leaves the turn with one entry more, and answers the new entry's place, from 1. The list that
    /// was found had fewer than 2^32 entries. It takes no memory.
    pub fn leave_with(&self, seat: &mut Seat<V>, turn: Turn<V>) -> usize
        requires of { IsSeatOf self.now seat.old }
        requires holds { HoldsTurn seat.old turn }
        requires fixed { V.fixed turn.value ≡ self.now.fixed }
        requires one_more { ForSome seat.old.found
            (λ list. (entry : V.Entry) × (V.entries turn.value ≡ list ++ entry ∷ [])) }
        requires room { ForSome seat.old.found (λ list. length list < 2 ^ 32) }
        ensures place { result ≡ length (V.entries turn.value) }
        ensures added { (list : List V.Entry) (entry : V.Entry)
            → seat.old.found ≡ Some list → V.entries turn.value ≡ list ++ entry ∷ []
            → let own = seat.old.own ++ placed result entry ∷ [] in
            seat.new ≡ record seat.old { own = own; front = V.entries turn.value; found = None } }
    {
        let Turn { value, count } = turn;
        self.put_back(&mut seat.at, value);
        self.table
            .shared
            .store::<Add<V>>(&mut seat.at, 0, 2 * count + 2);
        self.wake();
        count as usize + 1
    }

    /// Leaves the turn with the list that was found. It takes no memory.
    pub fn leave(&self, seat: &mut Seat<V>, turn: Turn<V>)
        requires of { IsSeatOf self.now seat.old }
        requires holds { HoldsTurn seat.old turn }
        requires fixed { V.fixed turn.value ≡ self.now.fixed }
        requires same { seat.old.found ≡ Some (V.entries turn.value) }
        ensures { seat.new ≡ record seat.old { front = V.entries turn.value; found = None } }
    {
        let Turn { value, count } = turn;
        self.put_back(&mut seat.at, value);
        self.table.shared.store::<Leave>(&mut seat.at, 0, 2 * count);
        self.wake();
    }

    fn put_back(&self, at: &mut atomic_table::Seat<Option<V>, View<V::Entry, V::Fixed>>, value: V)
        requires table { at.old.table_id ≡ self.now.table }
        requires empty { at.old.me.1 ≡ (0, None) ∷ [] }
        ensures same { (at.new.table_id ≡ at.old.table_id) × (at.new.id ≡ at.old.id) }
        ensures full { at.new.me ≡ (at.old.me.0, (0, Some value) ∷ []) }
    {
        drop(self.table.shared.exchange(at, 0, Some(value)));
    }

    // The sleeper counts itself before it looks at the word again, and `wake` looks at the count
    // after the word was changed: so one of them sees the other.
    fn sleep_while<R: Wait>(&self, rt: &R, word: u64) {
        self.sleepers.fetch_add(1, SeqCst);
        self.table.shared.park(rt, 0, (word & WATCHED) as u32);
        self.sleepers.fetch_sub(1, SeqCst);
    }

    fn wake(&self) {
        if self.sleepers.load(SeqCst) > 0 {
            self.table.shared.wake_one(0);
        }
    }
}
