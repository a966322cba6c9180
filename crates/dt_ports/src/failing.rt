//! Which calls of an object in memory fail.

ghost use Rattle.std.specs.Prelude.{◌≡◌, ◌↔◌, Contains, IsTrue};
ghost use Rattle.dt_ports.specs.Count.{next_count};

use crate::count::Count;

/// The calls made so far, and the numbers of those that fail. Calls are numbered from 1, and all calls from the
/// greatest number of 64 bits on have that number.
#[derive(Debug, Drop)]
pub(crate) struct FailingCalls {
    pub(crate) numbers: Vec<u64>,
    pub(crate) made: Count,
}

impl FailingCalls {
    /// Counts the next call, and says whether it fails.
    pub(crate) fn next_fails(&mut self) -> bool
        ensures numbers { self.new.numbers.items ≡ self.old.numbers.items }
        ensures made { self.new.made ≡ next_count self.old.made }
        ensures fails { IsTrue result ↔ Contains self.old.numbers.items (next_count self.old.made) }
    {
        self.made.raise();
        self.numbers.contains(&self.made.get())
    }
}
