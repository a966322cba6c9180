//! Names, what they mean, and which ones a specification binds where.

ghost use Rattle.std.specs.Prelude.{◌≡◌, ◌++◌, ◌∷◌, [], IfOk, OnOk};
ghost use Rattle.spec_model.specs.declared.tree.Kind.{out-Kind};
ghost use Rattle.spec_rules.specs.Names.{hole_type, local, names_of_chan, names_of_pattern};
ghost use Rattle.spec_rules.specs.Place.{bound_behind};

use spec_model::Memory;
use spec_model::copy::TryCopy;
use spec_model::list::Bytes;
use spec_model::tree::{Chan, HoleKind, Item, Kind};
use std::alloc::Global;

/// The type of a value.
#[derive(Clone, Copy, Debug, PartialEq, Eq)]
pub enum ValueType {
    Text,
    Number,
    Conn,
}

/// What a name means.
#[derive(Clone, Copy, Debug, PartialEq, Eq)]
pub enum Meaning {
    /// A register, whose values are of this type.
    Register(ValueType),
    /// A local: what a `recv`, a hole, a pick or a `get` binds.
    Local(ValueType),
    /// A table.
    Table,
}

/// A name that is known, and what it means.
#[derive(Debug, Drop)]
pub struct Known {
    pub name: Bytes,
    pub meaning: Meaning,
}

impl TryCopy for Known {
    fn copy(&self, alloc: Global) -> Result<Known, Memory> {
        Ok(Known {
            name: self.name.copy(alloc)?,
            meaning: self.meaning,
        })
    }
}

/// A local of that name and type.
pub fn local(alloc: Global, name: &Bytes, value_type: ValueType) -> Result<Known, Memory>
    ensures { IfOk result (λ known. known ≡ local name.now value_type) }
{
    Ok(Known {
        name: name.copy(alloc)?,
        meaning: Meaning::Local(value_type),
    })
}

/// The name that a `recv` gives to the connection, if it gives one.
pub fn names_of_chan(alloc: Global, chan: &Chan) -> Result<Vec<Known>, Memory>
    ensures { IfOk result (λ names. names.items ≡ names_of_chan chan.now) }
{
    let mut names = Vec::new(alloc);
    if let Chan::Bind(name) = chan {
        names.push(local(alloc, name, ValueType::Conn)?)?;
    }
    Ok(names)
}

/// The type of what a hole binds its name to.
fn hole_type(kind: HoleKind) -> ValueType
    ensures { result ≡ hole_type kind }
{
    match kind {
        HoleKind::Word => ValueType::Text,
        HoleKind::Num => ValueType::Number,
        HoleKind::Rest => ValueType::Text,
    }
}

/// Puts the name of an item at the end, if it has one.
fn push_item(alloc: Global, names: &mut Vec<Known>, item: &Item) -> Result<(), Memory>
    ensures { OnOk result (names.new.items ≡ names.old.items ++ names_of_pattern (item.now ∷ [])) }
{
    if let Item::Hole(name, kind) = item {
        names.push(local(alloc, name, hole_type(*kind))?)?;
    }
    Ok(())
}

/// The names of a pattern's holes.
pub fn names_of_pattern(alloc: Global, items: &[Item]) -> Result<Vec<Known>, Memory>
    ensures { IfOk result (λ names. names.items ≡ names_of_pattern items.now) }
{
    let mut names = Vec::new(alloc);
    for item in items {
        push_item(alloc, &mut names, item)?;
    }
    Ok(names)
}

/// The names that a statement makes known behind it, up to the end of its block.
pub fn bound_behind(alloc: Global, kind: &Kind) -> Result<Vec<Known>, Memory>
    ensures { IfOk result (λ names. names.items ≡ bound_behind (out-Kind kind.now)) }
{
    let mut names = Vec::new(alloc);
    if let Kind::Pick { name, .. } = kind {
        names.push(local(alloc, name, ValueType::Text)?)?;
    }
    Ok(names)
}
