//! Symbols, and pairs of atoms that differ.

ghost use Rattle.std.specs.Prelude.{◌≡◌, IfOk};

use crate::atom::Atom;
use spec_model::Memory;
use spec_model::tree::Alphabet;
use std::alloc::Global;

/// What is known of a text on its own: its length in bytes, an alphabet that has each of its bytes, and the atom that it
/// equals, which is the symbol itself where no earlier symbol and no constant is known to be equal. Definition: own.
#[derive(Debug, Drop)]
pub struct Symbol {
    pub len: u8,
    pub alphabet: Alphabet,
    pub stands_for: Atom,
}

/// Two atoms whose texts differ.
#[derive(Debug, Drop)]
pub struct Difference {
    pub left: Atom,
    pub right: Atom,
}

impl Symbol {
    /// An equal symbol.
    pub fn copy(&self, alloc: Global) -> Result<Symbol, Memory>
        ensures { IfOk result (λ symbol. symbol ≡ self.now) }
    {
        Ok(Symbol {
            len: self.len,
            alphabet: self.alphabet,
            stands_for: self.stands_for.copy(alloc)?,
        })
    }
}

impl Difference {
    /// An equal pair.
    pub fn copy(&self, alloc: Global) -> Result<Difference, Memory>
        ensures { IfOk result (λ difference. difference ≡ self.now) }
    {
        Ok(Difference {
            left: self.left.copy(alloc)?,
            right: self.right.copy(alloc)?,
        })
    }
}
