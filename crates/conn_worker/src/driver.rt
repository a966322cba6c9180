//! The driver of one connection.

ghost use Rattle.std.specs.Prelude.{◌≡◌, ◌<◌, false, IfOk, List, OnErr};
ghost use Rattle.conn_worker.specs.Driving.{is_garbled_on, new_course, AreActions, Fits, HasNone};
ghost use Rattle.conn_worker.specs.Seen.{shows};
ghost use Rattle.conn_worker.specs.Turn.{is_over, moment, AddsOn, HasCause, HasFlow, IsRest, SameTask};
ghost use Rattle.dt_ports.specs.Link.{IsFresh};
ghost use Rattle.spec_model.specs.declared.event.ClientEvent.{ClientEvent};

use crate::progress::Progress;
use crate::seen::Seen;
use crate::{DriverState, IDLE_TURNS, ROOM};
use dt_ports::book::Book;
use dt_ports::link::Link;
use exchange_text::action::Action;
use spec_model::Memory;
use spec_model::event::Shape;
use std::alloc::Global;
use std::marker::Model;
use std::net::Net;
use std::rt::Clock;
use std::sync::Wait;
use std::thread::Threads;

/// Drives one connection over its link.
///
/// Contracts see what the link shows, and how far the connection is driven.
#[derive(Drop)]
pub struct Driver<L: Link> {
    link: L,
    room: Vec<u8>,
    progress: Progress,
}

impl<L: Link> Model for Driver<L> {
    ghost use Rattle.std.specs.Prelude.{◌≡◌, length};
    ghost use Rattle.conn_worker.specs.Driving.{Driving};
    ghost use Rattle.conn_worker.specs.Seen.{shows};
    ghost use Rattle.conn_worker.specs.declared.TheConstants.{ROOM};

    ghost Value = { Driving };

    ghost view = { λ driver. record {
      link = shows (L.sent driver.link) (L.got driver.link) (L.counts driver.link);
      course = driver.progress;
    } };

    ghost invariant = { λ driver. length driver.room.items ≡ ROOM };
}

impl<L: Link> Driver<L> {
    /// A driver of which no turn was made. The link is fresh, and a script text of this shape may have these actions on the
    /// connection. The driver fits every book that has no event on the connection.
    pub fn new(
        alloc: Global,
        link: L,
        shape: Shape,
        conn: u16,
        actions: Vec<Action>,
    ) -> Result<Driver<L>, Memory>
        requires fresh { IsFresh (L.counts link) (L.sent link) (L.got link) }
        requires conn { conn < shape.conns }
        requires actions { AreActions shape actions.items }
        ensures link { IfOk result (λ driver. driver.link ≡ shows (L.sent link) (L.got link) (L.counts link)) }
        ensures course { IfOk result (λ driver. driver.course ≡ new_course shape conn actions.items) }
        ensures fits { IfOk result (λ driver. (events : List ClientEvent) → HasNone conn events → Fits driver events) }
    {
        Ok(Driver {
            link,
            room: vec![in alloc; 0; ROOM]?,
            progress: Progress::new(alloc, shape, conn, actions)?,
        })
    }

    /// Makes one turn. In this order: it passes met awaits; where there is no output and the next action is a send, the event is
    /// kept first and the frame becomes the output; where there is output, one send is tried; one receive is tried, and each
    /// whole message then at hand is kept, and behind them what was garbled. A turn in which the link was not ready and nothing
    /// was kept is idle, and waits.
    ///
    /// After `IDLE_TURNS` idle turns in a row the driving ends idle where there is output, and ends done where no action is left;
    /// otherwise the next await is given up. A turn may be made until one is over. After want of memory it may be made again: no
    /// event is lost, and none is kept twice.
    pub fn turn<R: Threads + Wait + Net + Clock + Sync, B: Book>(
        &mut self,
        rt: &R,
        alloc: Global,
        book: &mut B,
    ) -> Result<DriverState, Memory>
        requires shape { B.shape book.old ≡ self.old.course.shape }
        requires fits { Fits self.old (B.events book.old) }
        requires goes_on { self.old.course.is_over ≡ false }

        // The driver fits its book again, whatever the answer, with the same connection, shape and actions.
        ensures fits { Fits self.new (B.events book.new) }
        ensures task { SameTask self.old.course self.new.course }

        // The book has the shape and the name that it had, and only events of the connection more.
        ensures shape { B.shape book.new ≡ B.shape book.old }
        ensures name { B.name book.new ≡ B.name book.old }
        ensures adds { AddsOn self.old.course.conn (B.events book.old) (B.events book.new) }

        // No byte of a message is handed over before it is kept as sent, and no message is kept as received before its last
        // byte came.
        ensures flow { HasFlow result (moment self.new (B.events book.new) (B.counts book.new)) }

        // What is at hand behind the last message: bytes that begin no message where garbled bytes came, any bytes where the turn
        // was cut short, and else an unfinished frame.
        ensures rest { IsRest (is_garbled_on self.new.course.conn (B.events book.new)) result self.new.course.shape self.new.course.at_hand }

        // Why it answers what it answers.
        ensures cause { IfOk result (HasCause (moment self.old (B.events book.old) (B.counts book.old))
            (moment self.new (B.events book.new) (B.counts book.new))) }
        ensures over { IfOk result (λ state. self.new.course.is_over ≡ is_over state) }
        ensures err { OnErr result (self.new.course.is_over ≡ false) }
    {
        self.progress.pass_awaits();
        let said = self.progress.say(rt, alloc, book)?;
        let handed = self.progress.hand_over(&mut self.link);
        let came = self
            .progress
            .receive(&mut self.link, self.room.as_mut_slice())?;
        let kept = self.progress.keep_messages(rt, alloc, book)?;
        let seen = said.and(handed).and(came).and(kept);
        rest(&mut self.link, rt, seen);
        Ok(self.progress.settle(seen))
    }

    /// How many turns in a row were idle. After an await that was given up they are counted anew.
    pub fn idle(&self) -> u32
        ensures idle { result ≡ self.now.course.idle }
        ensures below { self.now.course.is_over ≡ false → result < IDLE_TURNS }
    {
        self.progress.idle()
    }

    /// The link.
    pub fn into_link(self) -> L
        ensures { shows (L.sent result) (L.got result) (L.counts result) ≡ self.link }
    {
        let Driver {
            link,
            room: _,
            progress: _,
        } = self;
        link
    }
}

/// Waits, where nothing happened.
fn rest<R: Threads + Wait + Net + Clock + Sync, L: Link>(link: &mut L, rt: &R, seen: Seen)
    ensures { shows (L.sent link.new) (L.got link.new) (L.counts link.new) ≡ shows (L.sent link.old) (L.got link.old) (L.counts link.old) }
{
    if seen.is_quiet() {
        link.wait(rt);
    }
}
