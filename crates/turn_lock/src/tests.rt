//! What no clause says: that the calls return while threads work at one lock, and that no thread
//! sleeps for ever.
ghost use Rattle.std.specs.Prelude.{◌≡◌, ◌<◌, ◌^◌, ◌++◌, ◌∷◌, [], length, IfOk};
ghost use Rattle.std.specs.Bool.{OnTrue, OnFalse};
ghost use denote.Param.Send.{IsSync};
ghost use Rattle.turn_lock.specs.Seats.{IsIdleSeatOf, first_seat};

use crate::{Listed, Seat, Turn, TurnLock};
use std::alloc::{AllocError, Global};
use std::sync::Wait;
use std::test::Fail;
use std::thread;
use std::thread::{Threads, join};
use std::time::{Clock, Duration};

// At most so many numbers.
#[derive(Drop)]
struct Numbers {
    items: Vec<u64>,
    limit: u32,
}

impl Listed for Numbers {
    type Entry = u64;

    type Fixed = u32;

    ghost entries = { λ numbers. numbers.items.items };

    ghost fixed = { λ numbers. numbers.limit };
}

impl Numbers {
    fn push(&mut self, number: u64) -> bool
        ensures pushed { OnTrue result (self.new.items.items ≡ self.old.items.items ++ number ∷ []) }
        ensures room { OnTrue result (length self.old.items.items < 2 ^ 32) }
        ensures full { OnFalse result (self.new.items.items ≡ self.old.items.items) }
        ensures limit { self.new.limit ≡ self.old.limit }
    {
        self.items.len() < self.limit as usize && self.items.push(number).is_ok()
    }
}

fn crosses<T: Send>(value: T) -> T
    ensures { result ≡ value }
{
    value
}

fn is_shared<T: Sync>(_value: &T) {}

// Wherever the value may go to another thread, so may its lock, seats and turns, and threads may
// share the lock.
fn all_cross<V: Listed + Send>(
    lock: TurnLock<V>,
    seat: Seat<V>,
    turn: Turn<V>,
) -> (TurnLock<V>, Seat<V>, Turn<V>)
    ensures { result ≡ (lock, seat, turn) }
{
    is_shared(&lock);
    (crosses(lock), crosses(seat), crosses(turn))
}

fn open(alloc: Global, limit: u32) -> Result<(TurnLock<Numbers>, Seat<Numbers>), AllocError>
    ensures { IfOk result (λ made. made.1 ≡ first_seat made.0) }
{
    let numbers = Numbers {
        items: Vec::new(alloc),
        limit,
    };
    TurnLock::open(alloc, numbers)
}

// The number's place, unless there is no room for it.
fn add<R: Wait>(
    rt: &R,
    lock: &TurnLock<Numbers>,
    seat: &mut Seat<Numbers>,
    number: u64,
) -> Option<usize>
    requires { IsIdleSeatOf lock.now seat.old }
    ensures { seat.new ≡ record seat.old { own = seat.new.own; front = seat.new.front } }
{
    let mut turn = lock.take(rt, seat);
    if turn.value().push(number) {
        Some(lock.leave_with(seat, turn))
    } else {
        lock.leave(seat, turn);
        None
    }
}

// A seat, with the places that it was told.
type Filled = (Seat<Numbers>, Vec<usize>);

// Adds so many numbers, from the first on.
fn fill<R: Wait>(
    rt: &R,
    alloc: Global,
    lock: &TurnLock<Numbers>,
    mut seat: Seat<Numbers>,
    first: u32,
    count: u32,
) -> Result<Filled, AllocError>
    requires { IsIdleSeatOf lock.now seat }
    ensures { IfOk result (λ filled. IsIdleSeatOf lock.now filled.0) }
{
    let mut places = Vec::new(alloc);
    for k in 0..count {
        if let Some(place) = add(rt, lock, &mut seat, first as u64 + k as u64) {
            places.push(place)?;
        }
    }
    Ok((seat, places))
}

// Whether the numbers from the first on stand at these places.
fn stand_at(numbers: &Numbers, first: u32, places: &Vec<usize>) -> bool {
    places.iter().enumerate().all(|(k, place)| {
        let stands = place.checked_sub(1).and_then(|at| numbers.items.get(at));
        stands == Some(&(first as u64 + k as u64))
    })
}

// The same in two threads, each with numbers of its own.
fn fill_both<R: Threads + Wait + Sync>(
    rt: &R,
    alloc: Global,
    lock: &TurnLock<Numbers>,
    seats: (Seat<Numbers>, Seat<Numbers>),
    firsts: (u32, u32),
    count: u32,
) -> Result<(Filled, Filled), AllocError>
    requires one { IsIdleSeatOf lock.now seats.0 }
    requires two { IsIdleSeatOf lock.now seats.1 }
    ensures one { IfOk result (λ both. IsIdleSeatOf lock.now both.0.0) }
    ensures two { IfOk result (λ both. IsIdleSeatOf lock.now both.1.0) }
{
    let (one, two) = seats;
    let (one, two) = join(
        rt,
        || -> Result<Filled, AllocError>
            requires { IsIdleSeatOf lock.now one }
            ensures { IfOk result (λ filled. IsIdleSeatOf lock.entry.now filled.0) }
        { fill(rt, alloc, lock, one, firsts.0, count) },
        || -> Result<Filled, AllocError>
            requires { IsIdleSeatOf lock.now two }
            ensures { IfOk result (λ filled. IsIdleSeatOf lock.entry.now filled.0) }
        { fill(rt, alloc, lock, two, firsts.1, count) },
    );
    Ok((one?, two?))
}

#[test]
fn two_threads_find_their_entries(rt: HostRuntime) -> Result<(), Fail> {
    let alloc = rt.alloc();
    let (lock, mut first) = open(alloc, 200)?;
    let seats = (lock.split(&mut first), lock.split(&mut first));
    let ((one, mine), (two, others)) = fill_both(&rt, alloc, &lock, seats, (0, 1000), 100)?;
    lock.join(&mut first, one);
    lock.join(&mut first, two);
    let numbers = lock.close(first);
    assert_eq!(rt;
        (numbers.items.len(), mine.len(), others.len()),
        (200, 100, 100)
    );
    assert!(rt; stand_at(&numbers, 0, &mine) && stand_at(&numbers, 1000, &others));
    Ok(())
}

// Four threads add a thousand numbers each. Whether all stand where the threads were told.
fn four_threads<R: Threads + Wait + Sync>(rt: &R, alloc: Global) -> Result<bool, AllocError> {
    let (lock, mut first) = open(alloc, 4000)?;
    let low = (lock.split(&mut first), lock.split(&mut first));
    let high = (lock.split(&mut first), lock.split(&mut first));
    let (low, high) = join(
        rt,
        || -> Result<(Filled, Filled), AllocError>
            requires { IsIdleSeatOf lock low.0 × IsIdleSeatOf lock low.1 × IsSync R.row }
            ensures { IfOk result (λ both. IsIdleSeatOf lock both.0.0 × IsIdleSeatOf lock both.1.0) }
        { fill_both(rt, alloc, &lock, low, (0, 1000), 1000) },
        || -> Result<(Filled, Filled), AllocError>
            requires { IsIdleSeatOf lock high.0 × IsIdleSeatOf lock high.1 × IsSync R.row }
            ensures { IfOk result (λ both. IsIdleSeatOf lock both.0.0 × IsIdleSeatOf lock both.1.0) }
        { fill_both(rt, alloc, &lock, high, (2000, 3000), 1000) },
    );
    let ((one, a), (two, b)) = low?;
    let ((three, c), (four, d)) = high?;
    lock.join(&mut first, one);
    lock.join(&mut first, two);
    lock.join(&mut first, three);
    lock.join(&mut first, four);
    let numbers = lock.close(first);
    let low_stand = stand_at(&numbers, 0, &a) && stand_at(&numbers, 1000, &b);
    let high_stand = stand_at(&numbers, 2000, &c) && stand_at(&numbers, 3000, &d);
    Ok(numbers.items.len() == 4000 && a.len() == 1000 && low_stand && high_stand)
}

#[test]
fn four_threads_find_four_thousand_entries(rt: HostRuntime) -> Result<(), Fail> {
    for _ in 0..20 {
        assert!(rt; four_threads(&rt, rt.alloc())?);
    }
    Ok(())
}

#[test]
fn a_joined_seat_keeps_its_entries(rt: HostRuntime) -> Result<(), Fail> {
    let (lock, mut first) = open(rt.alloc(), 3)?;
    let mut other = lock.split(&mut first);
    assert_eq!(rt; add(&rt, &lock, &mut other, 7), Some(1));
    assert_eq!(rt; add(&rt, &lock, &mut first, 8), Some(2));
    assert_eq!(rt; add(&rt, &lock, &mut other, 9), Some(3));
    lock.join(&mut first, other);
    assert_eq!(rt; lock.close(first).items.as_slice(), [7, 8, 9].as_slice());
    Ok(())
}

#[test]
fn a_turn_without_an_entry_adds_none(rt: HostRuntime) -> Result<(), Fail> {
    let (lock, mut first) = open(rt.alloc(), 1)?;
    let turn = lock.take(&rt, &mut first);
    let (lock, mut first, turn) = all_cross(lock, first, turn);
    lock.leave(&mut first, turn);
    assert_eq!(rt; add(&rt, &lock, &mut first, 7), Some(1));
    assert_eq!(rt; add(&rt, &lock, &mut first, 8), None);
    assert_eq!(rt; lock.close(first).items.as_slice(), [7].as_slice());
    Ok(())
}

// Adds the number at the end of a turn that lasts a while.
fn add_slowly<R: Wait + Clock>(
    rt: &R,
    lock: &TurnLock<Numbers>,
    seat: &mut Seat<Numbers>,
    number: u64,
) -> Option<usize>
    requires { IsIdleSeatOf lock.now seat.old }
{
    let mut turn = lock.take(rt, seat);
    let _ = thread::sleep(rt, Duration::from_millis(20));
    if turn.value().push(number) {
        Some(lock.leave_with(seat, turn))
    } else {
        lock.leave(seat, turn);
        None
    }
}

// Whichever comes second goes to sleep, and is woken.
#[test]
fn a_sleeper_is_woken(rt: HostRuntime) -> Result<(), Fail> {
    let (lock, mut first) = open(rt.alloc(), 2)?;
    let mut other = lock.split(&mut first);
    let places = join(
        &rt,
        || -> Option<usize>
            requires { IsIdleSeatOf lock first }
        { add_slowly(&rt, &lock, &mut first, 7) },
        || -> Option<usize>
            requires { IsIdleSeatOf lock other }
        { add_slowly(&rt, &lock, &mut other, 8) },
    );
    assert!(rt; places == (Some(1), Some(2)) || places == (Some(2), Some(1)));
    Ok(())
}
