//! How far a connection is driven.

ghost use Rattle.std.specs.Prelude.{◌≡◌, ◌≢◌, ◌<◌, [], false, length, option_copied, IfOk, List, OnErr};
ghost use Rattle.conn_worker.specs.Driving.{new_course, AreActions};
ghost use Rattle.conn_worker.specs.Parts.{is_met, next_action, PassesAwaits};
ghost use Rattle.conn_worker.specs.Seen.{at, shows, Saw};
ghost use Rattle.dt_ports.specs.Count.{next_count};
ghost use Rattle.dt_ports.specs.declared.book.BookCounts.{BookCounts};
ghost use Rattle.spec_model.specs.declared.event.ClientEvent.{ClientEvent};

mod keeping;
mod saying;
mod settling;

use crate::at_hand::AtHand;
use crate::output::Output;
use crate::seen::Seen;
use crate::{IDLE_TURNS, ROOM};
use dt_ports::link::{Link, SendStep};
use exchange_text::action::Action;
use spec_model::Memory;
use spec_model::event::Shape;
use spec_model::list::Bytes;
use std::alloc::Global;
use std::marker::Model;

/// How far a connection is driven, but for its link.
#[derive(Debug, Drop)]
pub(crate) struct Progress {
    shape: Shape,
    conn: u16,
    actions: Vec<Action>,
    passed: usize,
    given_up: usize,
    receipts: Vec<Bytes>,
    output: Output,
    at_hand: AtHand,
    idle: u32,
    is_over: bool,
}

impl Model for Progress {
    ghost use Rattle.conn_worker.specs.Driving.{Course};

    ghost Value = { Course };

    ghost use Rattle.conn_worker.specs.Driving.{IsCourse};
    ghost use Rattle.conn_worker.specs.Progress.{course_of};

    ghost view = { course_of };

    ghost invariant = { λ progress. IsCourse (course_of progress) };
}

impl Progress {
    /// Nothing is done yet.
    pub(crate) fn new(
        alloc: Global,
        shape: Shape,
        conn: u16,
        actions: Vec<Action>,
    ) -> Result<Progress, Memory>
        requires conn { conn < shape.conns }
        requires actions { AreActions shape actions.items }
        ensures { IfOk result (λ progress. progress ≡ new_course shape conn actions.items) }
    {
        Ok(Progress {
            shape,
            conn,
            actions,
            passed: 0,
            given_up: 0,
            receipts: Vec::new(alloc),
            output: Output::new(alloc),
            at_hand: AtHand::new(alloc, 2 * ROOM)?,
            idle: 0,
            is_over: false,
        })
    }

    /// The number of idle turns in a row.
    pub(crate) fn idle(&self) -> u32
        ensures idle { result ≡ self.now.idle }
        ensures below { self.now.is_over ≡ false → result < IDLE_TURNS }
    {
        self.idle
    }

    /// The action behind those that are passed.
    fn next_action(&self) -> Option<&Action>
        ensures { option_copied result ≡ next_action self.now }
    {
        self.actions.get(self.passed)
    }

    /// Whether the next action is an await of no more messages than were received.
    fn next_is_met(&self) -> bool
        ensures { result ≡ is_met (length self.now.receipts) (next_action self.now) }
    {
        match self.next_action() {
            Some(Action::Await(count)) => *count as usize <= self.receipts.len(),
            Some(Action::Send(_)) => false,
            None => false,
        }
    }

    /// Passes met awaits.
    pub(crate) fn pass_awaits(&mut self)
        ensures { PassesAwaits self.old self.new }
    {
        while self.next_is_met() {
            self.passed += 1;
        }
    }

    /// Hands some of the output over, where there is any.
    pub(crate) fn hand_over<L: Link>(&mut self, link: &mut L) -> Seen
        ensures saw { (events : List ClientEvent) (counts : BookCounts) →
            Saw (at (shows (L.sent link.old) (L.got link.old) (L.counts link.old)) self.old events counts)
            (at (shows (L.sent link.new) (L.got link.new) (L.counts link.new)) self.new events counts) result }
        ensures ungarbled { result.garbled ≡ false }
        ensures waited { result.moved ≡ false → result.failed ≡ false → self.old.output ≢ [] →
            (L.counts link.new).sends_not_ready ≡ next_count (L.counts link.old).sends_not_ready }
        ensures over { self.new.is_over ≡ self.old.is_over }
        ensures receives { (L.counts link.new).receives_not_ready ≡ (L.counts link.old).receives_not_ready }
    {
        if self.output.is_empty() {
            return Seen::nothing();
        }
        match link.try_send(self.output.as_slice()) {
            SendStep::Took(count) => {
                self.output.pass(count);
                Seen::moved()
            }
            SendStep::NotReady => Seen::nothing(),
            SendStep::Failed => Seen::failed(),
        }
    }

    /// Receives what is there.
    pub(crate) fn receive<L: Link>(&mut self, link: &mut L, room: &mut [u8]) -> Result<Seen, Memory>
        requires { 0 < length room.old }
        ensures saw { IfOk result (λ seen. (events : List ClientEvent) (counts : BookCounts) →
            Saw (at (shows (L.sent link.old) (L.got link.old) (L.counts link.old)) self.old events counts)
            (at (shows (L.sent link.new) (L.got link.new) (L.counts link.new)) self.new events counts) seen) }
        ensures ungarbled { IfOk result (λ seen. seen.garbled ≡ false) }
        ensures waited { IfOk result (λ seen. seen.moved ≡ false → seen.failed ≡ false → seen.ended ≡ false →
            (L.counts link.new).receives_not_ready ≡ next_count (L.counts link.old).receives_not_ready) }
        ensures sends { IfOk result (λ seen. (L.counts link.new).sends_not_ready ≡ (L.counts link.old).sends_not_ready) }
        ensures over { self.new.is_over ≡ self.old.is_over }
        ensures err { OnErr result (self.new ≡ self.old) }
        ensures err_link { OnErr result (link.new ≡ link.old) }
    {
        let step = self.at_hand.receive(link, room)?;
        Ok(Seen::received(step))
    }
}
