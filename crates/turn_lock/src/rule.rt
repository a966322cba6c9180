//! The rule of the lock's table, and what each step on the table tells. No value of these types is made.
use crate::listed::Listed;
use crate::view::View;
use atomic_table::{Join, Play, Split, TableRule};
use std::marker::PhantomData;
use std::snapshot::Snapshot;

/// The entries of all seats spell one history, for which the value stands.
pub struct OneHistory<V> {
    marker: PhantomData<V>,
}

impl<V: Listed> TableRule<Option<V>, View<V::Entry, V::Fixed>, Snapshot<V>> for OneHistory<V> {
    ghost use Rattle.std.specs.Prelude.{Some};
    ghost use Rattle.turn_lock.specs.declared.view.Role.TheVariants.{First};
    ghost use Rattle.turn_lock.specs.Views.{blank};
    ghost use Rattle.turn_lock.specs.Rule.{Rule};

    ghost holds = { λ key. Rule V.entries V.fixed (V.fixed key.value) };

    ghost first = { λ key. blank First (Some (V.fixed key.value)) };
}

/// Takes the turn where the word is even.
pub struct Take<V> {
    marker: PhantomData<V>,
}

impl<V: Listed> Play<Option<V>, View<V::Entry, V::Fixed>> for Take<V> {
    ghost use Rattle.turn_lock.specs.Steps.{tried};

    ghost then = { tried V.entries V.fixed };
}

/// Gives the turn back with an entry.
pub struct Add<V> {
    marker: PhantomData<V>,
}

impl<V: Listed> Play<Option<V>, View<V::Entry, V::Fixed>> for Add<V> {
    ghost use Rattle.turn_lock.specs.Steps.{added};

    ghost then = { added V.entries V.fixed };
}

/// Gives the turn back as it was taken.
pub struct Leave;

impl<V, E, F> Play<Option<V>, View<E, F>> for Leave {
    ghost use Rattle.turn_lock.specs.Steps.{left};

    ghost then = { left };
}

/// Compares the two fronts that a join leaves the seat with.
pub struct Compare;

impl<V, E, F> Play<Option<V>, View<E, F>> for Compare {
    ghost use Rattle.turn_lock.specs.Steps.{compared};

    ghost then = { compared };
}

/// The first seat gives another one.
pub struct Give;

impl<E, F> Split<View<E, F>> for Give {
    ghost use Rattle.turn_lock.specs.declared.view.Role.TheVariants.{Other};
    ghost use Rattle.turn_lock.specs.Views.{blank, having_given};

    ghost left = { having_given };

    ghost right = { λ v. blank Other v.fixed };
}

/// The first seat takes another one over.
pub struct TakeOver;

impl<E, F> Join<View<E, F>> for TakeOver {
    ghost use Rattle.std.specs.Prelude.{None};
    ghost use Rattle.turn_lock.specs.declared.view.Role.TheVariants.{Spent};
    ghost use Rattle.turn_lock.specs.Views.{blank, having_taken_over};

    ghost both = { having_taken_over };

    ghost spent = { blank Spent None };
}
