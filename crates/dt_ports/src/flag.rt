//! What one link in memory lets another know.

ghost use Rattle.std.specs.Prelude.{◌≤◌};

use spec_model::Memory;
use std::alloc::Global;
use std::rt::Clock;
use std::sync::Arc;
use std::sync::atomic::{AtomicBool, Ordering};
use std::thread;
use std::time::Duration;

/// How long a short sleep is, in milliseconds.
const SHORT: u64 = 1;

/// A sign that all who share it see.
#[derive(Drop)]
pub(crate) struct Flag {
    raised: Arc<AtomicBool, Global>,
}

impl Flag {
    /// A sign that is down.
    pub(crate) fn new(alloc: Global) -> Result<Flag, Memory> {
        Ok(Flag {
            raised: Arc::new(alloc, AtomicBool::new(false))?,
        })
    }

    /// The same sign, for one more who shares it.
    pub(crate) fn share(&self) -> Result<Flag, Memory> {
        Ok(Flag {
            raised: Arc::try_clone(&self.raised)?,
        })
    }

    pub(crate) fn raise(&self) {
        self.raised.store(true, Ordering::SeqCst);
    }

    pub(crate) fn lower(&self) {
        self.raised.store(false, Ordering::SeqCst);
    }

    pub(crate) fn is_raised(&self) -> bool {
        self.raised.load(Ordering::SeqCst)
    }

    /// Sleeps until the sign is up, for so many short sleeps at most, and says how many it took.
    pub(crate) fn sleep_until_raised(&self, clock: &impl Clock, most: u32) -> u32
        ensures { result ≤ most }
    {
        for sleeps in 0..most {
            if self.is_raised() {
                return sleeps;
            }
            sleep_shortly(clock);
        }
        most
    }
}

/// Sleeps for a short while.
pub(crate) fn sleep_shortly(clock: &impl Clock) {
    thread::sleep(clock, Duration::from_millis(SHORT));
}
