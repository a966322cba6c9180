//! Limits of a statement's size.

ghost use Rattle.std.specs.Prelude.{◌≡◌, List};
ghost use Rattle.std.specs.List.{list_any};
ghost use Rattle.spec_model.specs.declared.tree.Kind.{out-Kind};
ghost use Rattle.spec_rules.specs.Bad.{has_bad_length, has_too_many_arms, has_too_many_cases, has_too_many_items, has_too_many_parts};
ghost use Rattle.spec_rules.specs.Path.{is_recv};
ghost use Rattle.spec_rules.specs.declared.names.Known.{Known};
ghost use Rattle.spec_check.specs.Parts.{has_many_items};

use spec_model::tree::{Case, Kind};

/// The greatest number of cases of a `recv`, without `other`.
const MOST_CASES: usize = 63;
/// The greatest number of items of a pattern.
const MOST_ITEMS: usize = 16;
/// The greatest number of parts of a send.
const MOST_PARTS: usize = 16;
/// The greatest number of arms.
const MOST_ARMS: usize = 16;
/// The least number of bytes of a pick.
const LEAST_PICK: u64 = 6;
/// The greatest number of bytes of a pick.
const GREATEST_PICK: u64 = 32;

/// Whether a statement takes a message.
pub fn is_recv(kind: &Kind) -> bool
    ensures { result ≡ is_recv (out-Kind kind.now) }
{
    matches!(kind, Kind::Recv { .. })
}

/// Whether a pick is shorter than 6 bytes or longer than 32.
pub fn has_bad_length(kind: &Kind) -> bool
    ensures { (known : List Known) → result ≡ has_bad_length known (out-Kind kind.now) }
{
    match kind {
        Kind::Pick { len, .. } => *len < LEAST_PICK || *len > GREATEST_PICK,
        _ => false,
    }
}

/// Whether a `recv` has more than 64 cases, `other` among them.
pub fn has_too_many_cases(kind: &Kind) -> bool
    ensures { (known : List Known) → result ≡ has_too_many_cases known (out-Kind kind.now) }
{
    match kind {
        Kind::Recv { cases, .. } => cases.len() > MOST_CASES,
        _ => false,
    }
}

/// Whether a pattern of one of these cases has more than 16 items.
fn some_has_many_items(cases: &[Case]) -> bool
    ensures { result ≡ list_any has_many_items cases.now }
{
    for case in cases {
        if case.items.len() > MOST_ITEMS {
            return true;
        }
    }
    false
}

/// Whether a pattern of a `recv` has more than 16 items.
pub fn has_too_many_items(kind: &Kind) -> bool
    ensures { (known : List Known) → result ≡ has_too_many_items known (out-Kind kind.now) }
{
    match kind {
        Kind::Recv { cases, .. } => some_has_many_items(cases.as_slice()),
        _ => false,
    }
}

/// Whether a send has more than 16 parts.
pub fn has_too_many_parts(kind: &Kind) -> bool
    ensures { (known : List Known) → result ≡ has_too_many_parts known (out-Kind kind.now) }
{
    match kind {
        Kind::Send { parts, .. } => parts.len() > MOST_PARTS,
        _ => false,
    }
}

/// Whether an `either` has more than 16 arms.
pub fn has_too_many_arms(kind: &Kind) -> bool
    ensures { (known : List Known) → result ≡ has_too_many_arms known (out-Kind kind.now) }
{
    match kind {
        Kind::Either { arms } => arms.len() > MOST_ARMS,
        _ => false,
    }
}
