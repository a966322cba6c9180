//! The bytes of a frame that are not handed over yet.

ghost use Rattle.std.specs.Prelude.{◌≡◌, ◌≤◌, ◌↔◌, [], drop, length, IsTrue};

use std::alloc::Global;
use std::marker::Model;

/// A frame, of which the first `handed` bytes are handed over.
#[derive(Debug, Drop)]
pub(crate) struct Output {
    frame: Vec<u8>,
    handed: usize,
}

impl Model for Output {
    ghost use Rattle.std.specs.Prelude.{◌≤◌, ℕ, List, drop, length};

    ghost Value = { List ℕ };

    ghost view = { λ output. drop output.handed output.frame.items };

    ghost invariant = { λ output. output.handed ≤ length output.frame.items };
}

impl Output {
    /// No bytes. It takes no memory.
    pub(crate) fn new(alloc: Global) -> Output
        ensures { result ≡ [] }
    {
        Output {
            frame: Vec::new(alloc),
            handed: 0,
        }
    }

    /// A frame of which nothing is handed over.
    pub(crate) fn of(frame: Vec<u8>) -> Output
        ensures { result ≡ frame.items }
    {
        Output { frame, handed: 0 }
    }

    /// Whether all is handed over.
    pub(crate) fn is_empty(&self) -> bool
        ensures { IsTrue result ↔ (self.now ≡ []) }
    {
        self.as_slice().is_empty()
    }

    /// The bytes left.
    pub(crate) fn as_slice(&self) -> &[u8]
        ensures { result.now ≡ self.now }
    {
        &self.frame[self.handed..]
    }

    /// Counts so many bytes as handed over.
    pub(crate) fn pass(&mut self, count: usize)
        requires { count ≤ length self.old }
        ensures { self.new ≡ drop count self.old }
    {
        self.handed += count;
    }
}
