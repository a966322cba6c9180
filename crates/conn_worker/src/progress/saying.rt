//! What is sent.

ghost use Rattle.std.specs.Prelude.{◌≡◌, [], false, IfOk, IfSome, OnErr};
ghost use Rattle.conn_worker.specs.Parts.{due_message, next_action};
ghost use Rattle.conn_worker.specs.Seen.{at, IsNoSend, Saw};
ghost use Rattle.dt_ports.specs.Link.{LinkShows};
ghost use Rattle.spec_model.specs.Message.{IsMessage};

use super::Progress;
use crate::output::Output;
use crate::seen::Seen;
use dt_ports::book::{Appended, Book};
use exchange_text::action::{Action, resolve};
use frame_cut::wrap;
use spec_model::Memory;
use spec_model::event::ClientEvent;
use spec_model::list::Bytes;
use std::alloc::Global;
use std::net::Net;
use std::rt::Clock;
use std::sync::Wait;
use std::thread::Threads;

impl Progress {
    /// The message that is to be sent now, where there is one.
    fn due_message(&self, alloc: Global) -> Result<Option<Bytes>, Memory>
        ensures value { IfOk result (λ message. message ≡ due_message self.now.output (next_action self.now) self.now.receipts) }
        ensures message { IfOk result (λ message. IfSome message (IsMessage self.now.shape)) }
    {
        if !self.output.is_empty() {
            return Ok(None);
        }
        match self.next_action() {
            Some(Action::Send(parts)) => {
                let message = resolve(alloc, parts.as_slice(), self.receipts.as_slice())?;
                Ok(Some(message))
            }
            Some(Action::Await(_)) => Ok(None),
            None => Ok(None),
        }
    }

    /// Keeps that the message that is to be sent now is sent, where there is one; then its frame is the output. All memory is
    /// taken before the event is kept.
    pub(crate) fn say<R: Threads + Wait + Net + Clock + Sync, B: Book>(
        &mut self,
        rt: &R,
        alloc: Global,
        book: &mut B,
    ) -> Result<Seen, Memory>
        requires { B.shape book.old ≡ self.old.shape }
        ensures saw { IfOk result (λ seen. (link : LinkShows) →
            Saw (at link self.old (B.events book.old) (B.counts book.old)) (at link self.new (B.events book.new) (B.counts book.new)) seen) }
        ensures ungarbled { IfOk result (λ seen. seen.garbled ≡ false) }
        ensures next { IfOk result (λ seen. seen.moved ≡ false → seen.full ≡ false → self.new.output ≡ [] → IsNoSend (next_action self.new)) }
        ensures shape { B.shape book.new ≡ B.shape book.old }
        ensures name { B.name book.new ≡ B.name book.old }
        ensures over { self.new.is_over ≡ self.old.is_over }
        ensures err { OnErr result (self.new ≡ self.old) }
        ensures err_book { OnErr result (book.new ≡ book.old) }
    {
        let Some(message) = self.due_message(alloc)? else {
            return Ok(Seen::nothing());
        };
        let frame = wrap(alloc, &self.shape, &message)?;
        match book.append(rt, alloc, ClientEvent::Sends(self.conn, message)) {
            Appended::Kept { verdict, .. } => {
                self.output = Output::of(frame);
                self.passed += 1;
                self.idle = 0;
                Ok(Seen::kept(verdict))
            }
            Appended::Full(_) => Ok(Seen::full()),
        }
    }
}
