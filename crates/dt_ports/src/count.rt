//! Counts of answers, by which an answer shows its cause.

ghost use Rattle.std.specs.Prelude.{◌≡◌};
ghost use Rattle.dt_ports.specs.Count.{next_count};

use std::marker::Model;

/// How often an answer was given: a number of 64 bits that stands still at the greatest one. Definition: own.
#[derive(Clone, Copy, Debug, PartialEq, Eq)]
pub struct Count {
    value: u64,
}

impl Model for Count {
    ghost use Rattle.std.specs.Prelude.{ℕ};

    ghost Value = { ℕ };

    ghost view = { λ count. count.value };

    ghost inverse = { λ n. record { value = n } };
}

impl Count {
    /// A count of no answers.
    pub fn new() -> Count
        ensures { result ≡ 0 }
    {
        Count { value: 0 }
    }

    /// Counts one more answer.
    pub fn raise(&mut self)
        ensures { self.new ≡ next_count self.old }
    {
        self.value = self.value.saturating_add(1);
    }

    /// The number counted.
    pub fn get(self) -> u64
        ensures { result ≡ self }
    {
        self.value
    }
}

/// A call on the outside failed, and its object's count of faults rose.
#[derive(Clone, Copy, Debug, PartialEq, Eq)]
pub struct Failed;
