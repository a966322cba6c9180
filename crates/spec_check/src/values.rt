//! Tests of the values that a statement has written, and of the names that it uses.

ghost use Rattle.std.specs.Prelude.{◌≡◌, not};
ghost use Rattle.std.specs.List.{list_any};
ghost use Rattle.spec_model.specs.declared.tree.Kind.{out-Kind};
ghost use Rattle.spec_rules.specs.Bad.{is_long, texts_of, texts_of_patterns};
ghost use Rattle.spec_rules.specs.Names.{is_known, target_of, uses_unknown, values_of, values_of_cond, values_of_tail};
ghost use Rattle.spec_check.specs.Parts.{has_long_items, is_long_item};

use crate::known::is_known;
use spec_model::list::Bytes;
use spec_model::tree::{Case, Chan, Cond, Expr, Item, Kind, Sign};
use spec_rules::names::Known;

/// The greatest number of bytes of a written text.
const GREATEST_TEXT: usize = 4_096;

/// A test of a written value.
trait ValueTest {
    ghost use Rattle.std.specs.Prelude.{Bool};
    ghost use Rattle.spec_model.specs.declared.tree.Expr.{Expr};

    ghost passes: { Self → Expr → Bool };

    /// Whether the value passes the test.
    fn passes(&self, value: &Expr) -> bool
        ensures { result ≡ passes self.now value.now };
}

/// Whether a value is a name that is not known.
#[derive(Drop)]
struct IsUnknown<'a> {
    known: &'a [Known],
}

impl<'a> ValueTest for IsUnknown<'a> {
    ghost use Rattle.spec_check.specs.Parts.{is_unknown_value};

    ghost passes = { λ test value. is_unknown_value test.known.now value };

    fn passes(&self, value: &Expr) -> bool {
        match value {
            Expr::Name(name) => !is_known(self.known, name),
            _ => false,
        }
    }
}

/// Whether a value is a text that is too long.
#[derive(Clone, Copy)]
struct IsLong;

impl ValueTest for IsLong {
    ghost use Rattle.spec_check.specs.Parts.{is_long_value};

    ghost passes = { λ test value. is_long_value value };

    fn passes(&self, value: &Expr) -> bool {
        match value {
            Expr::Text(text) => is_long(text),
            _ => false,
        }
    }
}

/// Whether a text is too long.
pub fn is_long(text: &Bytes) -> bool
    ensures { result ≡ is_long text.now }
{
    text.len() > GREATEST_TEXT
}

/// Whether one of these values passes the test.
fn some_passes<T: ValueTest>(test: &T, values: &[Expr]) -> bool
    ensures { result ≡ list_any (T.passes test.now) values.now }
{
    for value in values {
        if test.passes(value) {
            return true;
        }
    }
    false
}

/// Whether a side of a comparison passes the test.
fn side_passes<T: ValueTest>(test: &T, cond: &Cond) -> bool
    ensures { result ≡ list_any (T.passes test.now) (values_of_cond cond.now) }
{
    test.passes(&cond.left) || test.passes(&cond.right)
}

/// Whether the second value of a sum or difference passes the test.
fn tail_passes<T: ValueTest>(test: &T, tail: &Option<(Sign, Expr)>) -> bool
    ensures { result ≡ list_any (T.passes test.now) (values_of_tail tail.now) }
{
    match tail {
        None => false,
        Some((_, right)) => test.passes(right),
    }
}

/// Whether one of the values that a statement has written passes the test.
fn some_value_passes<T: ValueTest>(test: &T, kind: &Kind) -> bool
    ensures { result ≡ list_any (T.passes test.now) (values_of (out-Kind kind.now)) }
{
    match kind {
        Kind::Recv { chan, .. } => match chan {
            Chan::Bind(_) => false,
            Chan::From(conn) => test.passes(conn),
        },
        Kind::Send { conn, parts } => test.passes(conn) || some_passes(test, parts.as_slice()),
        Kind::Pick { .. } => false,
        Kind::Assign { left, tail, .. } => test.passes(left) || tail_passes(test, tail),
        Kind::If { cond, .. } => side_passes(test, cond),
        Kind::Either { .. } => false,
        Kind::Assume { cond } => side_passes(test, cond),
        Kind::Put { key, value, .. } => test.passes(key) || test.passes(value),
        Kind::Lookup { key, .. } => test.passes(key),
        Kind::Delete { key, .. } => test.passes(key),
    }
}

/// Whether the register or table that a statement names is not known.
fn target_unknown(known: &[Known], kind: &Kind) -> bool
    ensures { result ≡ list_any (λ name. not (is_known known.now name)) (target_of (out-Kind kind.now)) }
{
    match kind {
        Kind::Assign { name, .. } => !is_known(known, name),
        Kind::Put { table, .. } => !is_known(known, table),
        Kind::Lookup { table, .. } => !is_known(known, table),
        Kind::Delete { table, .. } => !is_known(known, table),
        _ => false,
    }
}

/// Whether a statement uses a name that is not known.
#[tactic(auto, using(crate::proofs::StmtTests::uses_unknown_parts))]
pub fn uses_unknown(known: &[Known], kind: &Kind) -> bool
    ensures { result ≡ uses_unknown known.now (out-Kind kind.now) }
{
    target_unknown(known, kind) || some_value_passes(&IsUnknown { known }, kind)
}

/// Whether an item of a pattern is a text that is too long.
fn is_long_item(item: &Item) -> bool
    ensures { result ≡ is_long_item item.now }
{
    match item {
        Item::Lit(text) => is_long(text),
        Item::Hole(_, _) => false,
    }
}

/// Whether a pattern has a text that is too long.
fn has_long_item(items: &[Item]) -> bool
    ensures { result ≡ list_any is_long_item items.now }
{
    items.iter().any(is_long_item)
}

/// Whether a pattern of a `recv` has a text that is too long.
fn has_long_pattern(kind: &Kind) -> bool
    ensures { result ≡ list_any is_long (texts_of_patterns (out-Kind kind.now)) }
{
    match kind {
        Kind::Recv { cases, .. } => cases_are_long(cases.as_slice()),
        _ => false,
    }
}

/// Whether one of these cases has a text that is too long.
fn cases_are_long(cases: &[Case]) -> bool
    ensures { result ≡ list_any has_long_items cases.now }
{
    for case in cases {
        if has_long_item(case.items.as_slice()) {
            return true;
        }
    }
    false
}

/// Whether a statement has written a text that is too long.
#[tactic(auto, using(crate::proofs::StmtTests::texts_parts))]
pub fn has_long_text(kind: &Kind) -> bool
    ensures { result ≡ list_any is_long (texts_of (out-Kind kind.now)) }
{
    some_value_passes(&IsLong, kind) || has_long_pattern(kind)
}
