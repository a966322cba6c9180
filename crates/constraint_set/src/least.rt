//! The least solution.

ghost use Rattle.std.specs.Prelude.{◌≡◌, ◌++◌, IfOk, OnOk, length, option_to_list};
ghost use Rattle.std.specs.Option.{option_copied};
ghost use Rattle.constraint_set.specs.Known.{text_of};
ghost use Rattle.constraint_set.specs.Least.{first_texts, next_text, other_side, taken_by, taken_from, text_so_far};
ghost use Rattle.constraint_set.specs.Solved.{resolved};

use crate::atom::Atom;
use crate::equality::resolved;
use crate::free::first_free;
use crate::symbol::{Difference, Symbol};
use spec_model::Memory;
use spec_model::event::Framing;
use spec_model::list::{Bytes, List};
use std::alloc::Global;

/// The other one of two atoms, where one is the symbol.
fn other_side<'a>(number: u32, left: &'a Atom, right: &'a Atom) -> Option<&'a Atom>
    ensures { option_copied result ≡ other_side number left.now right.now }
{
    let symbol = Atom::Sym(number);
    if left.is_same(&symbol) {
        Some(right)
    } else if right.is_same(&symbol) {
        Some(left)
    } else {
        None
    }
}

/// The text of an atom, where it has one already.
fn text_so_far<'a>(texts: &'a [Bytes], atom: &'a Atom) -> Option<&'a Bytes>
    ensures { option_copied result ≡ text_so_far texts.now atom.now }
{
    match atom {
        Atom::Const(text) => Some(text),
        Atom::Sym(number) => texts.get(*number as usize),
    }
}

/// The text that a difference takes from a symbol.
fn taken_by<'a>(
    symbols: &'a [Symbol],
    texts: &'a [Bytes],
    number: u32,
    difference: &'a Difference,
) -> Option<&'a Bytes>
    ensures { option_copied result ≡ taken_by symbols.now texts.now number difference.now }
{
    let left = resolved(symbols, &difference.left);
    let right = resolved(symbols, &difference.right);
    match other_side(number, left, right) {
        None => None,
        Some(other) => text_so_far(texts, other),
    }
}

/// The texts that the differences take from a symbol.
fn taken_from(
    alloc: Global,
    symbols: &[Symbol],
    differences: &[Difference],
    texts: &[Bytes],
    number: u32,
) -> Result<Vec<Bytes>, Memory>
    ensures { IfOk result (λ taken. taken.items ≡ taken_from symbols.now differences.now texts.now number) }
{
    let mut taken = Vec::new(alloc);
    for difference in differences {
        let text = taken_by(symbols, texts, number, difference);
        push_copy(alloc, &mut taken, text)?;
    }
    Ok(taken)
}

/// Puts a copy of the text at the end, if there is one.
fn push_copy(alloc: Global, texts: &mut Vec<Bytes>, text: Option<&Bytes>) -> Result<(), Memory>
    ensures { OnOk result (texts.new.items ≡ texts.old.items ++ option_to_list (option_copied text.entry)) }
{
    match text {
        None => Ok(()),
        Some(text) => {
            texts.push(text.copy(alloc)?)?;
            Ok(())
        }
    }
}

/// The text at a place, or the empty one past the end.
fn text_at(alloc: Global, texts: &[Bytes], number: u32) -> Result<Bytes, Memory>
    ensures { IfOk result (λ text. text ≡ text_of texts.now (Atom.Sym number)) }
{
    match texts.get(number as usize) {
        Some(text) => text.copy(alloc),
        None => Ok(List::new(alloc)),
    }
}

/// The text of the next symbol.
fn next_text(
    alloc: Global,
    framing: Framing,
    symbols: &[Symbol],
    differences: &[Difference],
    texts: &[Bytes],
    symbol: &Symbol,
) -> Result<Bytes, Memory>
    ensures { IfOk result (λ text. text ≡ next_text framing symbols.now differences.now texts.now symbol.now) }
{
    match &symbol.stands_for {
        Atom::Const(text) => text.copy(alloc),
        Atom::Sym(number) => {
            if *number as usize == texts.len() {
                let taken = taken_from(alloc, symbols, differences, texts, *number)?;
                first_free(alloc, framing, symbol.alphabet, symbol.len, &taken)
            } else {
                text_at(alloc, texts, *number)
            }
        }
    }
}

/// The texts of the symbols, each the first that is left to it.
pub fn least_texts(
    alloc: Global,
    framing: Framing,
    symbols: &[Symbol],
    differences: &[Difference],
) -> Result<Vec<Bytes>, Memory>
    ensures { IfOk result (λ texts. texts.items ≡ first_texts framing symbols.now differences.now (length symbols.now)) }
{
    let mut texts = Vec::new(alloc);
    for symbol in symbols {
        let text = next_text(alloc, framing, symbols, differences, &texts, symbol)?;
        texts.push(text)?;
    }
    Ok(texts)
}
