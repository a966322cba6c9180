//! Names that are known, and names that are bound.

ghost use Rattle.std.specs.Prelude.{◌≡◌, ◌||◌, ◌++◌, ◌∷◌, [], IfOk};
ghost use Rattle.std.specs.List.{list_any};
ghost use Rattle.spec_model.specs.declared.tree.Kind.{out-Kind};
ghost use Rattle.spec_rules.specs.Bad.{binds_again};
ghost use Rattle.spec_rules.specs.Names.{binds_known, is_known, local, meaning_declared, meaning_of, names_declared, names_of_chan, names_of_pattern};
ghost use Rattle.spec_check.specs.Parts.{case_binds_again};

use spec_model::Memory;
use spec_model::list::Bytes;
use spec_model::tree::{Case, Chan, Decl, First, Item, Kind};
use spec_rules::names::{Known, Meaning, ValueType, local, names_of_chan, names_of_pattern};
use std::alloc::Global;

/// What a name means, if it is known.
pub fn meaning_of(known: &[Known], name: &Bytes) -> Option<Meaning>
    ensures { result ≡ meaning_of known.now name.now }
{
    let one = known.iter().find(|one| one.name == *name)?;
    Some(one.meaning)
}

/// Whether a name is known.
pub fn is_known(known: &[Known], name: &Bytes) -> bool
    ensures { result ≡ is_known known.now name.now }
{
    meaning_of(known, name).is_some()
}

/// Whether one of the bound names is known already, or stands twice among them.
fn binds_known(known: &[Known], bound: &[Known]) -> bool
    ensures { result ≡ binds_known known.now bound.now }
{
    for (i, one) in bound.iter().enumerate() {
        if is_known(known, &one.name) || is_known(&bound[..i], &one.name) {
            return true;
        }
    }
    false
}

/// What a declaration makes of its name.
fn meaning_declared(first: &First) -> Meaning
    ensures { result ≡ meaning_declared first.now }
{
    match first {
        First::Text(_) => Meaning::Register(ValueType::Text),
        First::Num(_) => Meaning::Register(ValueType::Number),
        First::Conn(_) => Meaning::Register(ValueType::Conn),
        First::Table => Meaning::Table,
    }
}

/// The names that declarations make known.
pub fn names_declared(alloc: Global, decls: &[Decl]) -> Result<Vec<Known>, Memory>
    ensures { IfOk result (λ names. names.items ≡ names_declared decls.now) }
{
    let mut names = Vec::new(alloc);
    for decl in decls {
        names.push(Known {
            name: decl.name.copy(alloc)?,
            meaning: meaning_declared(&decl.first),
        })?;
    }
    Ok(names)
}

/// The names that are known in a case.
pub fn case_names(alloc: Global, chan: &Chan, items: &[Item]) -> Result<Vec<Known>, Memory>
    ensures { IfOk result (λ names. names.items ≡ names_of_chan chan.now ++ names_of_pattern items.now) }
{
    let mut names = names_of_chan(alloc, chan)?;
    let mut holes = names_of_pattern(alloc, items)?;
    names.append(&mut holes)?;
    Ok(names)
}

/// The names that are known in `other`.
pub fn other_names(alloc: Global, chan: &Chan, other: &Bytes) -> Result<Vec<Known>, Memory>
    ensures { IfOk result (λ names. names.items ≡ names_of_chan chan.now ++ local other.now ValueType.Text ∷ []) }
{
    let mut names = names_of_chan(alloc, chan)?;
    names.push(local(alloc, other, ValueType::Text)?)?;
    Ok(names)
}

/// The name that `get` binds.
pub fn found_names(alloc: Global, name: &Bytes) -> Result<Vec<Known>, Memory>
    ensures { IfOk result (λ names. names.items ≡ local name.now ValueType.Text ∷ []) }
{
    let mut names = Vec::new(alloc);
    names.push(local(alloc, name, ValueType::Text)?)?;
    Ok(names)
}

/// Whether one of the cases binds a name that is known, or two of one name.
fn cases_bind_again(
    alloc: Global,
    known: &[Known],
    chan: &Chan,
    cases: &[Case],
) -> Result<bool, Memory>
    ensures { IfOk result (λ again. again ≡ list_any (case_binds_again known.now chan.now) cases.now) }
{
    for case in cases {
        let bound = case_names(alloc, chan, case.items.as_slice())?;
        if binds_known(known, bound.as_slice()) {
            return Ok(true);
        }
    }
    Ok(false)
}

/// Whether a `recv` binds a name that is known, or two of one name.
fn recv_binds_again(
    alloc: Global,
    known: &[Known],
    chan: &Chan,
    cases: &[Case],
    other: &Bytes,
) -> Result<bool, Memory>
    ensures { IfOk result (λ again. again ≡ (list_any (case_binds_again known.now chan.now) cases.now || binds_known known.now (names_of_chan chan.now ++ local other.now ValueType.Text ∷ []))) }
{
    if cases_bind_again(alloc, known, chan, cases)? {
        return Ok(true);
    }
    let bound = other_names(alloc, chan, other)?;
    Ok(binds_known(known, bound.as_slice()))
}

/// Whether a statement binds a name that is known, or two of one name together.
pub fn binds_again(alloc: Global, known: &[Known], kind: &Kind) -> Result<bool, Memory>
    ensures { IfOk result (λ again. again ≡ binds_again known.now (out-Kind kind.now)) }
{
    match kind {
        Kind::Recv {
            chan,
            cases,
            other,
            ..
        } => recv_binds_again(alloc, known, chan, cases.as_slice(), other),
        Kind::Pick { name, .. } => Ok(is_known(known, name)),
        Kind::Lookup { name, .. } => Ok(is_known(known, name)),
        Kind::Send { .. } => Ok(false),
        Kind::Assign { .. } => Ok(false),
        Kind::If { .. } => Ok(false),
        Kind::Either { .. } => Ok(false),
        Kind::Assume { .. } => Ok(false),
        Kind::Put { .. } => Ok(false),
        Kind::Delete { .. } => Ok(false),
    }
}
