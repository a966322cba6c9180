//! The canonical form of facts as seen from roots.

ghost use Rattle.std.specs.Prelude.{◌≡◌, ◌++◌, ◌∷◌, ◌<◌, IfOk, List, length, OnOk, filter_map, flat_map, map, option_to_list, replicate, ℕ};
ghost use Rattle.std.specs.Cmp.Lexicographic.{slice_cmp};
ghost use Rattle.std.specs.List.Sorted.{IsStrictlySortedBy};
ghost use Rattle.std.specs.Ordering.{nat_cmp};
ghost use Rattle.constraint_set.specs.Form.{ArePlaces, IsWritten, alphabet_byte, difference_key, pair_key, packed, place_bytes, place_of, root_key, text_key, with_place};
ghost use Rattle.constraint_set.specs.Known.{IsIn};

use crate::atom::Atom;
use crate::characters::text_numbered;
use crate::equality::resolved;
use crate::key::Key;
use crate::symbol::{Difference, Symbol};
use spec_model::Memory;
use spec_model::event::Framing;
use spec_model::list::{Bytes, List};
use spec_model::pick::may_be_picked;
use spec_model::tree::Alphabet;
use std::alloc::Global;

/// A place in eight bytes, the greatest first.
fn place_bytes(alloc: Global, place: usize) -> Result<Bytes, Memory>
    ensures { IfOk result (λ bytes. bytes ≡ place_bytes place) }
{
    text_numbered(alloc, Framing::Len16, Alphabet::Any, 8, place)
}

/// Notes the place where the atom is one of the symbols.
fn put_place(places: &mut Vec<Option<usize>>, atom: &Atom, place: usize)
    ensures { places.new.items ≡ with_place places.old.items atom.now place }
{
    match atom {
        Atom::Const(_) => {}
        Atom::Sym(number) => {
            let number = *number as usize;
            if number < places.len() {
                places[number] = Some(place);
            }
        }
    }
}

/// A table without places.
fn no_places(alloc: Global, symbols: &[Symbol]) -> Result<Vec<Option<usize>>, Memory>
    ensures { IfOk result (λ places. places.items ≡ replicate (length symbols.now) None) }
{
    let mut places = Vec::new(alloc);
    for _symbol in symbols {
        places.push(None)?;
    }
    Ok(places)
}

/// The table of the first places of the symbols among the roots.
fn places_of(
    alloc: Global,
    symbols: &[Symbol],
    roots: &[Atom],
) -> Result<Vec<Option<usize>>, Memory>
    ensures { IfOk result (λ places. ArePlaces symbols.now roots.now places.items) }
{
    let mut places = no_places(alloc, symbols)?;
    for place in (0..roots.len()).rev() {
        put_place(&mut places, resolved(symbols, &roots[place]), place);
    }
    Ok(places)
}

/// Roots, with the table of places.
#[derive(Clone, Copy)]
struct Seen<'a> {
    symbols: &'a [Symbol],
    roots: &'a [Atom],
    places: &'a [Option<usize>],
}

/// The first place among the roots of what stands for the symbol.
fn place_of(seen: Seen, number: u32) -> Option<usize>
    requires places { ArePlaces seen.symbols.now seen.roots.now seen.places.now }
    requires within { number < length seen.symbols.now }
    ensures { result ≡ place_of seen.entry.symbols.now seen.entry.roots.now number }
{
    match seen.places.get(number as usize) {
        Some(place) => *place,
        None => None,
    }
}

/// The byte of an alphabet.
fn alphabet_byte(alphabet: Alphabet) -> u8
    ensures { result ≡ alphabet_byte alphabet }
{
    match alphabet {
        Alphabet::Hex => 0,
        Alphabet::Alnum => 1,
        Alphabet::Any => 2,
    }
}

/// What is written of a root.
fn root_key(alloc: Global, seen: Seen, root: &Atom) -> Result<Vec<u8>, Memory>
    requires { ArePlaces seen.symbols.now seen.roots.now seen.places.now }
    ensures { IfOk result (λ key. key.items ≡ root_key seen.entry.symbols.now seen.entry.roots.now root.now) }
{
    let mut key = Vec::new(alloc);
    match resolved(seen.symbols, root) {
        Atom::Const(text) => {
            key.push(0)?;
            key.extend_from_slice(text.as_slice())?;
            Ok(key)
        }
        Atom::Sym(number) => {
            key.push(1)?;
            let Some(symbol) = seen.symbols.get(*number as usize) else {
                return Ok(key);
            };
            key.push(symbol.len)?;
            key.push(alphabet_byte(symbol.alphabet))?;
            let Some(place) = place_of(seen, *number) else {
                return Ok(key);
            };
            let bytes = place_bytes(alloc, place)?;
            key.extend_from_slice(bytes.as_slice())?;
            Ok(key)
        }
    }
}

/// A key of a first byte and two byte strings.
fn key_of(alloc: Global, first: u8, front: &[u8], back: &[u8]) -> Result<Key, Memory>
    ensures { IfOk result (λ key. key ≡ first ∷ (front.now ++ back.now)) }
{
    let mut bytes = Vec::new(alloc);
    bytes.push(first)?;
    bytes.extend_from_slice(front)?;
    bytes.extend_from_slice(back)?;
    Ok(Key::new(List::from_vec(bytes)))
}

/// What is written of two symbols that differ.
fn pair_key(alloc: Global, seen: Seen, first: u32, second: u32) -> Result<Option<Key>, Memory>
    requires { ArePlaces seen.symbols.now seen.roots.now seen.places.now }
    ensures { IfOk result (λ key. key ≡ pair_key seen.entry.symbols.now seen.entry.roots.now first second) }
{
    let Some(a) = seen.symbols.get(first as usize) else {
        return Ok(None);
    };
    let Some(b) = seen.symbols.get(second as usize) else {
        return Ok(None);
    };
    let Some(first_place) = place_of(seen, first) else {
        return Ok(None);
    };
    let Some(second_place) = place_of(seen, second) else {
        return Ok(None);
    };
    if a.len != b.len {
        return Ok(None);
    }
    let lesser = place_bytes(alloc, first_place.min(second_place))?;
    let greater = place_bytes(alloc, first_place.max(second_place))?;
    Ok(Some(key_of(alloc, 2, lesser.as_slice(), greater.as_slice())?))
}

/// What is written of a symbol that differs from a constant.
fn text_key(
    alloc: Global,
    framing: Framing,
    seen: Seen,
    number: u32,
    text: &Bytes,
) -> Result<Option<Key>, Memory>
    requires { ArePlaces seen.symbols.now seen.roots.now seen.places.now }
    ensures { IfOk result (λ key. key ≡ text_key framing seen.entry.symbols.now seen.entry.roots.now number text.now) }
{
    let Some(symbol) = seen.symbols.get(number as usize) else {
        return Ok(None);
    };
    let Some(place) = place_of(seen, number) else {
        return Ok(None);
    };
    if !may_be_picked(
        framing,
        u64::from(symbol.len),
        symbol.alphabet,
        text.as_slice(),
    ) {
        return Ok(None);
    }
    let front = place_bytes(alloc, place)?;
    Ok(Some(key_of(alloc, 3, front.as_slice(), text.as_slice())?))
}

/// What is written of a difference.
fn difference_key(
    alloc: Global,
    framing: Framing,
    seen: Seen,
    difference: &Difference,
) -> Result<Option<Key>, Memory>
    requires { ArePlaces seen.symbols.now seen.roots.now seen.places.now }
    ensures { IfOk result (λ key. key ≡ difference_key framing seen.entry.symbols.now seen.entry.roots.now difference.now) }
{
    let right = resolved(seen.symbols, &difference.right);
    match resolved(seen.symbols, &difference.left) {
        Atom::Const(text) => match right {
            Atom::Const(_) => Ok(None),
            Atom::Sym(number) => text_key(alloc, framing, seen, *number, text),
        },
        Atom::Sym(number) => match right {
            Atom::Const(text) => text_key(alloc, framing, seen, *number, text),
            Atom::Sym(other) => pair_key(alloc, seen, *number, *other),
        },
    }
}

/// Puts the key at the end, if there is one.
fn push_some(keys: &mut Vec<Key>, key: Option<Key>) -> Result<(), Memory>
    ensures { OnOk result (keys.new.items ≡ keys.old.items ++ option_to_list key) }
{
    match key {
        None => Ok(()),
        Some(key) => {
            keys.push(key)?;
            Ok(())
        }
    }
}

/// What is written of the differences.
fn difference_keys(
    alloc: Global,
    framing: Framing,
    seen: Seen,
    differences: &[Difference],
) -> Result<Vec<Key>, Memory>
    requires { ArePlaces seen.symbols.now seen.roots.now seen.places.now }
    ensures { IfOk result (λ keys. keys.items ≡ filter_map (difference_key framing seen.entry.symbols.now seen.entry.roots.now) differences.now) }
{
    let mut keys = Vec::new(alloc);
    for difference in differences {
        let key = difference_key(alloc, framing, seen, difference)?;
        push_some(&mut keys, key)?;
    }
    Ok(keys)
}

/// The same keys in their order, each once.
fn in_order(keys: Vec<Key>) -> Result<Vec<Key>, Memory>
    ensures sorted { IfOk result (λ sorted. IsStrictlySortedBy (slice_cmp nat_cmp) sorted.items) }
    ensures all { IfOk result (λ sorted. (key : List ℕ) → IsIn key keys.items → IsIn key sorted.items) }
    ensures only { IfOk result (λ sorted. (key : List ℕ) → IsIn key sorted.items → IsIn key keys.items) }
{
    let mut keys = keys;
    keys.sort()?;
    keys.dedup();
    Ok(keys)
}

/// Puts a byte string at the end, so that its end is seen.
fn put_packed(out: &mut Vec<u8>, text: &[u8]) -> Result<(), Memory>
    ensures { OnOk result (out.new.items ≡ out.old.items ++ packed text.now) }
{
    for byte in text {
        if *byte == 0 {
            out.extend_from_slice(&[0, 1])?;
        } else {
            out.push(*byte)?;
        }
    }
    out.extend_from_slice(&[0, 0])?;
    Ok(())
}

/// Puts what is written of the roots at the end.
fn put_roots(alloc: Global, seen: Seen, roots: &[Atom], out: &mut Vec<u8>) -> Result<(), Memory>
    requires { ArePlaces seen.symbols.now seen.roots.now seen.places.now }
    ensures { OnOk result (out.new.items ≡ out.old.items ++ flat_map packed (map (root_key seen.entry.symbols.now seen.entry.roots.now) roots.now)) }
{
    for root in roots {
        let key = root_key(alloc, seen, root)?;
        put_packed(out, &key)?;
    }
    Ok(())
}

/// Puts the keys at the end.
fn put_keys(keys: &[Key], out: &mut Vec<u8>) -> Result<(), Memory>
    ensures { OnOk result (out.new.items ≡ out.old.items ++ flat_map packed keys.now) }
{
    for key in keys {
        put_packed(out, key.as_slice())?;
    }
    Ok(())
}

/// The form.
pub fn form(
    alloc: Global,
    framing: Framing,
    symbols: &[Symbol],
    roots: &[Atom],
    differences: &[Difference],
) -> Result<Vec<u8>, Memory>
    ensures { IfOk result (λ form. IsWritten framing symbols.now differences.now roots.now form.items) }
{
    let places = places_of(alloc, symbols, roots)?;
    let seen = Seen {
        symbols,
        roots,
        places: &places,
    };
    let keys = in_order(difference_keys(alloc, framing, seen, differences)?)?;
    let mut out = Vec::new(alloc);
    put_roots(alloc, seen, roots, &mut out)?;
    put_keys(&keys, &mut out)?;
    Ok(out)
}
