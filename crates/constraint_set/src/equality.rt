//! What symbols become when two atoms are equal.

ghost use Rattle.std.specs.Prelude.{◌≡◌, IfOk, map, option_map};
ghost use Rattle.std.specs.List.{list_all};
ghost use Rattle.constraint_set.specs.Characters.{narrower};
ghost use Rattle.constraint_set.specs.Solved.{after_binding, after_equality, after_joining, bound_to, is_apart, joined_to, resolved, symbols_equated};

use crate::atom::Atom;
use crate::characters::narrower;
use crate::symbol::{Difference, Symbol};
use spec_model::Memory;
use spec_model::event::Framing;
use spec_model::list::Bytes;
use spec_model::pick::may_be_picked;
use spec_model::tree::Alphabet;
use std::alloc::Global;

/// What an atom stands for.
pub fn resolved<'a>(symbols: &'a [Symbol], atom: &'a Atom) -> &'a Atom
    ensures { result.now ≡ resolved symbols.now atom.now }
{
    match atom {
        Atom::Const(_) => atom,
        Atom::Sym(number) => match symbols.get(*number as usize) {
            Some(symbol) => &symbol.stands_for,
            None => atom,
        },
    }
}

/// Whether the sides of a difference do not stand for the same.
fn is_apart(symbols: &[Symbol], difference: &Difference) -> bool
    ensures { result ≡ is_apart symbols.now difference.now }
{
    let left = resolved(symbols, &difference.left);
    let right = resolved(symbols, &difference.right);
    !left.is_same(right)
}

/// Whether no difference has sides that stand for the same.
fn all_apart(symbols: &[Symbol], differences: &[Difference]) -> bool
    ensures { result ≡ list_all (is_apart symbols.now) differences.now }
{
    differences
        .iter()
        .all(|difference| is_apart(symbols, difference))
}

/// The symbol, which stands for the text where it stood for this symbol.
fn bound_to(alloc: Global, number: u32, text: &Bytes, symbol: &Symbol) -> Result<Symbol, Memory>
    ensures { IfOk result (λ bound. bound ≡ bound_to number text.now symbol.now) }
{
    let from = Atom::Sym(number);
    if symbol.stands_for.is_same(&from) {
        Ok(Symbol {
            len: symbol.len,
            alphabet: symbol.alphabet,
            stands_for: Atom::Const(text.copy(alloc)?),
        })
    } else {
        symbol.copy(alloc)
    }
}

/// Each symbol, bound so.
fn all_bound_to(
    alloc: Global,
    symbols: &[Symbol],
    number: u32,
    text: &Bytes,
) -> Result<Vec<Symbol>, Memory>
    ensures { IfOk result (λ bound. bound.items ≡ map (bound_to number text.now) symbols.now) }
{
    let mut bound = Vec::new(alloc);
    for symbol in symbols {
        bound.push(bound_to(alloc, number, text, symbol)?)?;
    }
    Ok(bound)
}

/// The symbols after one that stands for itself equals a text, or `None` where it cannot.
fn after_binding(
    alloc: Global,
    framing: Framing,
    symbols: &[Symbol],
    number: u32,
    text: &Bytes,
) -> Result<Option<Vec<Symbol>>, Memory>
    ensures { IfOk result (λ new. option_map (λ symbols. symbols.items) new ≡ after_binding framing symbols.now number text.now) }
{
    match symbols.get(number as usize) {
        None => Ok(None),
        Some(symbol) => {
            if may_be_picked(
                framing,
                u64::from(symbol.len),
                symbol.alphabet,
                text.as_slice(),
            ) {
                Ok(Some(all_bound_to(alloc, symbols, number, text)?))
            } else {
                Ok(None)
            }
        }
    }
}

/// The symbol, which stands for the lesser one over this alphabet where it stood for either one.
fn joined_to(
    alloc: Global,
    lesser: u32,
    greater: u32,
    alphabet: Alphabet,
    symbol: &Symbol,
) -> Result<Symbol, Memory>
    ensures { IfOk result (λ joined. joined ≡ joined_to lesser greater alphabet symbol.now) }
{
    let first = Atom::Sym(lesser);
    let second = Atom::Sym(greater);
    if symbol.stands_for.is_same(&first) || symbol.stands_for.is_same(&second) {
        Ok(Symbol {
            len: symbol.len,
            alphabet,
            stands_for: first,
        })
    } else {
        symbol.copy(alloc)
    }
}

/// Each symbol, joined so.
fn all_joined_to(
    alloc: Global,
    symbols: &[Symbol],
    lesser: u32,
    greater: u32,
    alphabet: Alphabet,
) -> Result<Vec<Symbol>, Memory>
    ensures { IfOk result (λ joined. joined.items ≡ map (joined_to lesser greater alphabet) symbols.now) }
{
    let mut joined = Vec::new(alloc);
    for symbol in symbols {
        joined.push(joined_to(alloc, lesser, greater, alphabet, symbol)?)?;
    }
    Ok(joined)
}

/// The symbols after two that stand for themselves are equal, or `None` where they cannot be.
fn after_joining(
    alloc: Global,
    symbols: &[Symbol],
    lesser: u32,
    greater: u32,
) -> Result<Option<Vec<Symbol>>, Memory>
    ensures { IfOk result (λ new. option_map (λ symbols. symbols.items) new ≡ after_joining symbols.now lesser greater) }
{
    let Some(first) = symbols.get(lesser as usize) else {
        return Ok(None);
    };
    let Some(second) = symbols.get(greater as usize) else {
        return Ok(None);
    };
    if first.len != second.len {
        return Ok(None);
    }
    let alphabet = narrower(first.alphabet, second.alphabet);
    Ok(Some(all_joined_to(alloc, symbols, lesser, greater, alphabet)?))
}

/// An equal list of symbols.
pub fn copy_of_symbols(alloc: Global, symbols: &[Symbol]) -> Result<Vec<Symbol>, Memory>
    ensures { IfOk result (λ copy. copy.items ≡ symbols.now) }
{
    let mut copy = Vec::new(alloc);
    for symbol in symbols {
        copy.push(symbol.copy(alloc)?)?;
    }
    Ok(copy)
}

/// The symbols after two resolved atoms are equal, or `None` where they cannot be.
fn after_equality(
    alloc: Global,
    framing: Framing,
    symbols: &[Symbol],
    left: &Atom,
    right: &Atom,
) -> Result<Option<Vec<Symbol>>, Memory>
    ensures { IfOk result (λ new. option_map (λ symbols. symbols.items) new ≡ after_equality framing symbols.now left.now right.now) }
{
    match left {
        Atom::Const(text) => match right {
            Atom::Const(other) => {
                if text == other {
                    Ok(Some(copy_of_symbols(alloc, symbols)?))
                } else {
                    Ok(None)
                }
            }
            Atom::Sym(number) => after_binding(alloc, framing, symbols, *number, text),
        },
        Atom::Sym(number) => match right {
            Atom::Const(text) => after_binding(alloc, framing, symbols, *number, text),
            Atom::Sym(other) => {
                if number == other {
                    Ok(Some(copy_of_symbols(alloc, symbols)?))
                } else if number < other {
                    after_joining(alloc, symbols, *number, *other)
                } else {
                    after_joining(alloc, symbols, *other, *number)
                }
            }
        },
    }
}

/// The symbols after two atoms are equal, or `None` where they cannot be.
pub fn symbols_equated(
    alloc: Global,
    framing: Framing,
    symbols: &[Symbol],
    differences: &[Difference],
    a: &Atom,
    b: &Atom,
) -> Result<Option<Vec<Symbol>>, Memory>
    ensures { IfOk result (λ new. option_map (λ symbols. symbols.items) new ≡ symbols_equated framing symbols.now differences.now a.now b.now) }
{
    let left = resolved(symbols, a);
    let right = resolved(symbols, b);
    match after_equality(alloc, framing, symbols, left, right)? {
        None => Ok(None),
        Some(equal) => {
            if all_apart(&equal, differences) {
                Ok(Some(equal))
            } else {
                Ok(None)
            }
        }
    }
}
