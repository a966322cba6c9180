//! What is received.

ghost use Rattle.std.specs.Prelude.{◌≡◌, ◌+◌, ◌≤◌, false, true, length, IfOk, OnErr};
ghost use Rattle.conn_worker.specs.Seen.{at, Keeps, Saw};
ghost use Rattle.conn_worker.specs.Turn.{EndsGarbled};
ghost use Rattle.dt_ports.specs.Link.{LinkShows};
ghost use Rattle.frame_cut.specs.Frame.{IsGarbled, IsUnfinished, IsWhole};

use super::Progress;
use crate::seen::Seen;
use dt_ports::book::{Appended, Book};
use frame_cut::{FrameCut, next};
use spec_model::Memory;
use spec_model::event::ClientEvent;
use spec_model::list::Bytes;
use std::alloc::Global;
use std::net::Net;
use std::rt::Clock;
use std::sync::Wait;
use std::thread::Threads;

impl Progress {
    /// Keeps the message in the first `used` bytes at hand. All memory is taken before the event is kept.
    fn keep_message<R: Threads + Wait + Net + Clock + Sync, B: Book>(
        &mut self,
        rt: &R,
        alloc: Global,
        book: &mut B,
        start: usize,
        len: usize,
        used: usize,
    ) -> Result<Seen, Memory>
        requires shape { B.shape book.old ≡ self.old.shape }
        requires whole { IsWhole self.old.shape self.old.at_hand start len used }
        ensures saw { IfOk result (λ seen. (link : LinkShows) →
            Saw (at link self.old (B.events book.old) (B.counts book.old)) (at link self.new (B.events book.new) (B.counts book.new)) seen) }
        ensures shorter { IfOk result (λ seen. seen.full ≡ false → length self.new.at_hand + used ≤ length self.old.at_hand) }
        ensures ungarbled { IfOk result (λ seen. seen.garbled ≡ false) }
        ensures shape { B.shape book.new ≡ B.shape book.old }
        ensures name { B.name book.new ≡ B.name book.old }
        ensures over { self.new.is_over ≡ self.old.is_over }
        ensures err { OnErr result (self.new ≡ self.old) }
        ensures err_book { OnErr result (book.new ≡ book.old) }
    {
        let bytes = &self.at_hand.as_slice()[start..start + len];
        let receipt = Bytes::from_slice(alloc, bytes)?;
        let message = Bytes::from_slice(alloc, bytes)?;
        self.receipts.reserve(1)?;
        match book.append(rt, alloc, ClientEvent::Receives(self.conn, message)) {
            Appended::Kept { verdict, .. } => {
                self.receipts.push(receipt).unwrap();
                self.at_hand.pass(used);
                self.idle = 0;
                Ok(Seen::kept(verdict))
            }
            Appended::Full(_) => Ok(Seen::full()),
        }
    }

    /// Keeps that the bytes at hand begin no message.
    fn keep_garbles<R: Threads + Wait + Net + Clock + Sync, B: Book>(
        &mut self,
        rt: &R,
        alloc: Global,
        book: &mut B,
    ) -> Seen
        requires shape { B.shape book.old ≡ self.old.shape }
        requires garbled { IsGarbled self.old.shape self.old.at_hand }
        ensures saw { (link : LinkShows) →
            Saw (at link self.old (B.events book.old) (B.counts book.old)) (at link self.new (B.events book.new) (B.counts book.new)) result }
        ensures garbled { result.garbled ≡ true → EndsGarbled self.new.conn (B.events book.new) }
        ensures why { result.garbled ≡ false → result.full ≡ true }
        ensures shape { B.shape book.new ≡ B.shape book.old }
        ensures name { B.name book.new ≡ B.name book.old }
        ensures over { self.new.is_over ≡ self.old.is_over }
    {
        match book.append(rt, alloc, ClientEvent::Garbles(self.conn)) {
            Appended::Kept { verdict, .. } => {
                self.idle = 0;
                return Seen::garbled(verdict);
            }
            Appended::Full(_) => return Seen::full(),
        }
    }

    /// Keeps each whole message at hand, in order, and then that what is behind them begins no message, where that is so.
    fn keep_each<R: Threads + Wait + Net + Clock + Sync, B: Book>(
        &mut self,
        rt: &R,
        alloc: Global,
        book: &mut B,
    ) -> Result<Seen, Memory>
        requires { B.shape book.old ≡ self.old.shape }
        ensures saw { IfOk result (λ seen. (link : LinkShows) →
            Saw (at link self.old (B.events book.old) (B.counts book.old)) (at link self.new (B.events book.new) (B.counts book.new)) seen) }
        ensures garbled { IfOk result (λ seen. seen.garbled ≡ true → EndsGarbled self.new.conn (B.events book.new)) }
        ensures rest { IfOk result (λ seen. seen.garbled ≡ false → seen.full ≡ false → IsUnfinished self.new.shape self.new.at_hand) }
        ensures err { OnErr result ((link : LinkShows) →
            Keeps (at link self.old (B.events book.old) (B.counts book.old)) (at link self.new (B.events book.new) (B.counts book.new))) }
        ensures shape { B.shape book.new ≡ B.shape book.old }
        ensures name { B.name book.new ≡ B.name book.old }
        ensures over { self.new.is_over ≡ self.old.is_over }
    {
        let mut seen = Seen::nothing();
        loop {
            match next(&self.shape, self.at_hand.as_slice()) {
                FrameCut::Unfinished => return Ok(seen),
                FrameCut::Garbled => return Ok(seen.and(self.keep_garbles(rt, alloc, book))),
                FrameCut::Whole { start, len, used } => {
                    seen = seen.and(self.keep_message(rt, alloc, book, start, len, used)?);
                    if seen.full {
                        return Ok(seen);
                    }
                }
            }
        }
    }

    /// Keeps each whole message at hand, in order, and then that what is behind them begins no message, where that is so. Where
    /// the book has no room, or memory is wanting, what is not kept stays at hand.
    pub(crate) fn keep_messages<R: Threads + Wait + Net + Clock + Sync, B: Book>(
        &mut self,
        rt: &R,
        alloc: Global,
        book: &mut B,
    ) -> Result<Seen, Memory>
        requires { B.shape book.old ≡ self.old.shape }
        ensures saw { IfOk result (λ seen. (link : LinkShows) →
            Saw (at link self.old (B.events book.old) (B.counts book.old)) (at link self.new (B.events book.new) (B.counts book.new)) seen) }
        ensures garbled { IfOk result (λ seen. seen.garbled ≡ true → EndsGarbled self.new.conn (B.events book.new)) }
        ensures rest { IfOk result (λ seen. seen.garbled ≡ false → seen.full ≡ false → IsUnfinished self.new.shape self.new.at_hand) }
        ensures err { OnErr result ((link : LinkShows) →
            Keeps (at link self.old (B.events book.old) (B.counts book.old)) (at link self.new (B.events book.new) (B.counts book.new))) }
        ensures shape { B.shape book.new ≡ B.shape book.old }
        ensures name { B.name book.new ≡ B.name book.old }
        ensures over { self.new.is_over ≡ self.old.is_over }
    {
        let seen = self.keep_each(rt, alloc, book)?;
        self.at_hand.let_go();
        Ok(seen)
    }
}
