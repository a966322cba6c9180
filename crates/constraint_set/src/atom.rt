//! Texts, known or not.

ghost use Rattle.std.specs.Prelude.{◌≡◌, IfOk};
ghost use Rattle.constraint_set.specs.Known.{is_same};

use spec_model::Memory;
use spec_model::list::Bytes;
use std::alloc::Global;

/// A text: one that is written out, or that of a symbol, which stands for a text that is not known. Symbols are
/// numbered from 0 in the order in which they were made. Definition: own.
#[derive(Debug, Drop)]
pub enum Atom {
    Const(Bytes),
    Sym(u32),
}

impl Atom {
    /// An equal atom.
    pub fn copy(&self, alloc: Global) -> Result<Atom, Memory>
        ensures { IfOk result (λ atom. atom ≡ self.now) }
    {
        match self {
            Atom::Const(text) => Ok(Atom::Const(text.copy(alloc)?)),
            Atom::Sym(symbol) => Ok(Atom::Sym(*symbol)),
        }
    }

    /// Whether both are the same text written out, or the same symbol.
    pub fn is_same(&self, other: &Atom) -> bool
        ensures { result ≡ is_same self.now other.now }
    {
        match self {
            Atom::Const(text) => match other {
                Atom::Const(other_text) => text == other_text,
                Atom::Sym(_) => false,
            },
            Atom::Sym(symbol) => match other {
                Atom::Const(_) => false,
                Atom::Sym(other_symbol) => symbol == other_symbol,
            },
        }
    }
}
