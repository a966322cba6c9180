//! What is known about picked texts.

ghost use Rattle.std.specs.Prelude.{◌≡◌, ◌≢◌, ◌+◌, ◌<◌, ◌-◌, ◌^◌, ◌↔◌, [], IfOk, IsTrue, List, OnErr, Some, length, slice_get, ℕ};
ghost use Rattle.std.specs.Bool.{OnFalse, OnTrue};
ghost use Rattle.constraint_set.specs.Characters.{texts_count};
ghost use Rattle.constraint_set.specs.Known.{HasFresh, IsAtomOf, IsNarrowedTo, IsSolution, text_of};
ghost use Rattle.constraint_set.specs.Form.{IsForm};
ghost use Rattle.spec_model.specs.Order.{AreTextsUpTo};
ghost use Rattle.constraint_set.specs.RootTexts.{TakeSame};

use crate::atom::Atom;
use crate::characters::has_more_texts;
use crate::difference::{can_differ, copy_of_differences, push_difference};
use crate::equality::{copy_of_symbols, symbols_equated};
use crate::form::form;
use crate::least::least_texts;
use crate::symbol::{Difference, Symbol};
use spec_model::Memory;
use spec_model::event::Framing;
use spec_model::list::{Bytes, List};
use spec_model::tree::Alphabet;
use std::alloc::Global;
use std::marker::Model;

/// What is known about texts that a server picked and nobody has seen yet: lengths, alphabets, and which of them are equal or
/// differ. It is kept solved, so that it always has a solution. Definition: own.
#[derive(Debug, Drop)]
pub struct Facts {
    framing: Framing,
    room: u64,
    asked: u64,
    symbols: Vec<Symbol>,
    differences: Vec<Difference>,
}

impl Model for Facts {
    ghost use Rattle.constraint_set.specs.Known.{Known};
    ghost use Rattle.constraint_set.specs.Solved.{IsSolved};

    ghost Value = { Known };

    ghost view = { λ facts. record {
      framing = facts.framing;
      room = facts.room;
      asked = facts.asked;
      symbols = facts.symbols.items;
      differences = facts.differences.items;
    } };

    ghost invariant = { λ facts. IsSolved (record {
      framing = facts.framing;
      room = facts.room;
      asked = facts.asked;
      symbols = facts.symbols.items;
      differences = facts.differences.items;
    }) };
}

impl Facts {
    /// Facts about no symbols. The framing says what the alphabet `any` is, and at most `room` disequalities will be asked.
    pub fn new(alloc: Global, framing: Framing, room: u64) -> Result<Facts, Memory>
        ensures { IfOk result (λ facts. facts ≡ record { framing = framing; room = room; asked = 0; symbols = []; differences = [] }) }
    {
        Ok(Facts {
            framing,
            room,
            asked: 0,
            symbols: Vec::new(alloc),
            differences: Vec::new(alloc),
        })
    }

    /// Whether the atom is a constant or one of these symbols.
    pub fn has(&self, atom: &Atom) -> bool
        ensures { IsTrue result ↔ IsAtomOf self.now atom.now }
    {
        match atom {
            Atom::Const(_) => true,
            Atom::Sym(number) => (*number as usize) < self.symbols.len(),
        }
    }

    /// Whether a symbol of this length over this alphabet may be added: there are fewer than 2^32 - 1 symbols, and the symbol may
    /// have more than `room` + 1 texts.
    pub fn can_add(&self, n: u8, alphabet: Alphabet) -> bool
        ensures { IsTrue result ↔ ((length self.now.symbols < 2 ^ 32 - 1) × (self.now.room + 1 < texts_count self.now.framing alphabet n)) }
    {
        let more = has_more_texts(self.framing, alphabet, n, u128::from(self.room) + 1);
        self.symbols.len() < 4_294_967_295 && more
    }

    /// Whether one disequality more may be asked: there were fewer than `room`.
    pub fn can_ask(&self) -> bool
        ensures { IsTrue result ↔ (self.now.asked < self.now.room) }
    {
        self.asked < self.room
    }

    /// The next symbol, whose text may be any of `n` bytes over the alphabet. Symbols are numbered from 0. After an error the
    /// facts are as they were.
    pub fn fresh(&mut self, alloc: Global, n: u8, alphabet: Alphabet) -> Result<u32, Memory>
        requires few { length self.old.symbols < 2 ^ 32 - 1 }
        requires many { self.old.room + 1 < texts_count self.old.framing alphabet n }
        ensures number { IfOk result (λ symbol. symbol ≡ length self.old.symbols) }
        ensures fresh { IfOk result (λ symbol. HasFresh self.old self.new n alphabet) }
        ensures unchanged { OnErr result (self.new ≡ self.old) }
    {
        let number = self.symbols.len() as u32;
        self.symbols.push(Symbol {
            len: n,
            alphabet,
            stands_for: Atom::Sym(number),
        })?;
        Ok(number)
    }

    /// Learns that two texts are equal, and answers whether they can be. Where they cannot, or after an error, the facts are as
    /// they were.
    pub fn equal(&mut self, alloc: Global, a: &Atom, b: &Atom) -> Result<bool, Memory>
        requires first { IsAtomOf self.old a.now }
        requires second { IsAtomOf self.old b.now }
        ensures met { IfOk result (λ can. OnTrue can (IsNarrowedTo self.old self.new (λ texts. text_of texts a.now ≡ text_of texts b.now))) }
        ensures asked { self.new.asked ≡ self.old.asked }
        ensures never { IfOk result (λ can. OnFalse can ((texts : List (List ℕ)) → IsSolution self.old texts → text_of texts a.now ≢ text_of texts b.now)) }
        ensures refused { IfOk result (λ can. OnFalse can (self.new ≡ self.old)) }
        ensures unchanged { OnErr result (self.new ≡ self.old) }
    {
        match symbols_equated(alloc, self.framing, &self.symbols, &self.differences, a, b)? {
            None => Ok(false),
            Some(symbols) => {
                self.symbols = symbols;
                Ok(true)
            }
        }
    }

    /// Learns that two texts differ, and answers whether they can. Where they cannot, or after an error, the facts are as they
    /// were.
    pub fn differ(&mut self, alloc: Global, a: &Atom, b: &Atom) -> Result<bool, Memory>
        requires room { self.old.asked < self.old.room }
        requires first { IsAtomOf self.old a.now }
        requires second { IsAtomOf self.old b.now }
        ensures met { IfOk result (λ can. OnTrue can (IsNarrowedTo self.old self.new (λ texts. text_of texts a.now ≢ text_of texts b.now))) }
        ensures asked { IfOk result (λ can. OnTrue can (self.new.asked ≡ self.old.asked + 1)) }
        ensures never { IfOk result (λ can. OnFalse can ((texts : List (List ℕ)) → IsSolution self.old texts → text_of texts a.now ≡ text_of texts b.now)) }
        ensures refused { IfOk result (λ can. OnFalse can (self.new ≡ self.old)) }
        ensures unchanged { OnErr result (self.new ≡ self.old) }
    {
        if !can_differ(&self.symbols, a, b) {
            return Ok(false);
        }
        push_difference(alloc, &self.symbols, &mut self.differences, a, b)?;
        self.asked += 1;
        Ok(true)
    }

    /// Learns that a text is this one, and answers whether it can be. Where it cannot, or after an error, the facts are as they
    /// were.
    pub fn assume_piece(&mut self, alloc: Global, a: &Atom, bytes: &[u8]) -> Result<bool, Memory>
        requires { IsAtomOf self.old a.now }
        ensures met { IfOk result (λ can. OnTrue can (IsNarrowedTo self.old self.new (λ texts. text_of texts a.now ≡ bytes.now))) }
        ensures asked { self.new.asked ≡ self.old.asked }
        ensures never { IfOk result (λ can. OnFalse can ((texts : List (List ℕ)) → IsSolution self.old texts → text_of texts a.now ≢ bytes.now)) }
        ensures refused { IfOk result (λ can. OnFalse can (self.new ≡ self.old)) }
        ensures unchanged { OnErr result (self.new ≡ self.old) }
    {
        let piece = Atom::Const(List::from_slice(alloc, bytes)?);
        self.equal(alloc, a, &piece)
    }

    /// The least solution, by the symbols in order and then by bytes: a text for each symbol.
    pub fn least(&self, alloc: Global) -> Result<Vec<Bytes>, Memory>
        ensures solution { IfOk result (λ texts. IsSolution self.now texts.items) }
        ensures least { IfOk result (λ texts. (others : List (List ℕ)) → IsSolution self.now others → AreTextsUpTo texts.items others) }
    {
        let texts = least_texts(alloc, self.framing, &self.symbols, &self.differences)?;
        Ok(texts)
    }

    /// The canonical form of the solutions as the roots see them: forms of facts that were made with one framing and one room are
    /// equal exactly where their roots take the same lists of texts over all solutions (`forms_tell`). A constant among the roots
    /// takes its own text.
    pub fn form(&self, alloc: Global, roots: &[Atom]) -> Result<Vec<u8>, Memory>
        requires { (place : ℕ) (root : Atom) → slice_get roots.now place ≡ Some root → IsAtomOf self.now root }
        ensures { IfOk result (λ form. IsForm self.now roots.now form.items) }
    {
        let form = form(alloc, self.framing, &self.symbols, roots, &self.differences)?;
        Ok(form)
    }

    /// A law: forms of facts that were made with one framing and one room are equal exactly where their roots take the same
    /// lists of texts over all solutions. The call does nothing.
    pub fn forms_tell(&self, roots: &[Atom], other: &Facts, other_roots: &[Atom])
        requires framing { self.now.framing ≡ other.now.framing }
        requires room { self.now.room ≡ other.now.room }
        requires roots { (place : ℕ) (root : Atom) → slice_get roots.now place ≡ Some root → IsAtomOf self.now root }
        requires other_roots { (place : ℕ) (root : Atom) → slice_get other_roots.now place ≡ Some root → IsAtomOf other.now root }
        ensures { (form other_form : List ℕ) → IsForm self.now roots.now form → IsForm other.now other_roots.now other_form
            → (form ≡ other_form) ↔ TakeSame self.now roots.now other.now other_roots.now }
    {
        let _rooms = (self.room, other.room);
        let _first = count_of(roots);
        let _second = count_of(other_roots);
    }

    /// Equal facts.
    pub fn copy(&self, alloc: Global) -> Result<Facts, Memory>
        ensures { IfOk result (λ copy. copy ≡ self.now) }
    {
        let symbols = copy_of_symbols(alloc, &self.symbols)?;
        let differences = copy_of_differences(alloc, &self.differences)?;
        Ok(Facts {
            framing: self.framing,
            room: self.room,
            asked: self.asked,
            symbols,
            differences,
        })
    }
}

/// How many roots there are.
fn count_of(roots: &[Atom]) -> usize
    ensures { result ≡ length roots.now }
{
    roots.len()
}
