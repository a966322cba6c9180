//! What is known when two atoms differ.

ghost use Rattle.std.specs.Prelude.{◌≡◌, IfOk, OnErr, OnOk};
ghost use Rattle.constraint_set.specs.Solved.{are_constants, can_differ, with_difference};

use crate::atom::Atom;
use crate::equality::resolved;
use crate::symbol::{Difference, Symbol};
use spec_model::Memory;
use std::alloc::Global;

/// Whether two atoms can differ.
pub fn can_differ(symbols: &[Symbol], a: &Atom, b: &Atom) -> bool
    ensures { result ≡ can_differ symbols.now a.now b.now }
{
    let left = resolved(symbols, a);
    let right = resolved(symbols, b);
    !left.is_same(right)
}

/// Whether both are constants.
fn are_constants(a: &Atom, b: &Atom) -> bool
    ensures { result ≡ are_constants a.now b.now }
{
    match a {
        Atom::Const(_) => match b {
            Atom::Const(_) => true,
            Atom::Sym(_) => false,
        },
        Atom::Sym(_) => false,
    }
}

/// Puts the pair at the end, unless both stand for constants.
pub fn push_difference(
    alloc: Global,
    symbols: &[Symbol],
    differences: &mut Vec<Difference>,
    a: &Atom,
    b: &Atom,
) -> Result<(), Memory>
    ensures ok { OnOk result (differences.new.items ≡ with_difference symbols.now differences.old.items a.now b.now) }
    ensures err { OnErr result (differences.new.items ≡ differences.old.items) }
{
    let left = resolved(symbols, a);
    let right = resolved(symbols, b);
    if are_constants(left, right) {
        return Ok(());
    }
    let left = a.copy(alloc)?;
    let right = b.copy(alloc)?;
    differences.push(Difference { left, right })?;
    Ok(())
}

/// An equal list of differences.
pub fn copy_of_differences(
    alloc: Global,
    differences: &[Difference],
) -> Result<Vec<Difference>, Memory>
    ensures { IfOk result (λ copy. copy.items ≡ differences.now) }
{
    let mut copy = Vec::new(alloc);
    for difference in differences {
        copy.push(difference.copy(alloc)?)?;
    }
    Ok(copy)
}
