//! What a turn answers.

ghost use Rattle.std.specs.Prelude.{◌≡◌, ◌≤◌, false};
ghost use Rattle.conn_worker.specs.Settling.{Idles, Settles};
ghost use Rattle.conn_worker.specs.Turn.{is_over, SameTask};

use super::Progress;
use crate::seen::Seen;
use crate::{DriverState, IDLE_TURNS, MOST_ACTIONS};
use dt_ports::end::End;

impl Progress {
    /// Counts a turn in which nothing happened. After so many in a row the next await is given up, or the driving is over.
    fn count_idle(&mut self) -> DriverState
        requires { self.old.is_over ≡ false }
        ensures { Idles self.old self.new result }
    {
        self.idle += 1;
        if self.idle < IDLE_TURNS {
            return DriverState::Going;
        }
        if !self.output.is_empty() {
            self.is_over = true;
            return DriverState::Over(End::Idle);
        }
        if self.passed == self.actions.len() {
            self.is_over = true;
            return DriverState::Over(End::Done);
        }
        self.passed += 1;
        self.given_up += 1;
        self.idle = 0;
        DriverState::Going
    }

    /// Decides what a turn answers that saw this.
    pub(crate) fn settle(&mut self, seen: Seen) -> DriverState
        requires { self.old.is_over ≡ false }
        ensures settles { Settles self.old self.new seen result }
        ensures over { self.new.is_over ≡ is_over result }
        ensures task { SameTask self.old self.new }
        ensures bounded { self.old.given_up ≤ MOST_ACTIONS }
    {
        if let Some(end) = seen.end() {
            self.is_over = true;
            return DriverState::Over(end);
        }
        if seen.moved {
            self.idle = 0;
            return DriverState::Going;
        }
        self.count_idle()
    }
}
