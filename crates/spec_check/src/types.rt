//! Whether names and written values are of the types that their places ask for.

ghost use Rattle.std.specs.Prelude.{◌≡◌, ◌&&◌};
ghost use Rattle.std.specs.List.{list_all};
ghost use Rattle.spec_model.specs.declared.tree.Kind.{out-Kind};
ghost use Rattle.spec_rules.specs.Names.{is_type, is_well_typed, meaning_of, may_assign, may_be, may_compare, may_mean, may_mean_table};
ghost use Rattle.spec_check.specs.Parts.{may_be_part, may_take};

use crate::known::meaning_of;
use spec_model::list::Bytes;
use spec_model::tree::{Chan, Cond, Expr, Kind, Op, Sign};
use spec_rules::names::{Known, Meaning, ValueType};

/// Whether two types are one.
fn is_type(one: ValueType, other: ValueType) -> bool
    ensures { result ≡ is_type one other }
{
    match (one, other) {
        (ValueType::Text, ValueType::Text) => true,
        (ValueType::Number, ValueType::Number) => true,
        (ValueType::Conn, ValueType::Conn) => true,
        _ => false,
    }
}

/// Whether what a name means is a value of this type, if it is known.
fn may_mean(value_type: ValueType, meaning: Option<Meaning>) -> bool
    ensures { result ≡ may_mean value_type meaning }
{
    match meaning {
        None => true,
        Some(Meaning::Register(other)) => is_type(value_type, other),
        Some(Meaning::Local(other)) => is_type(value_type, other),
        Some(Meaning::Table) => false,
    }
}

/// Whether a written value may be of this type.
fn may_be(known: &[Known], value_type: ValueType, value: &Expr) -> bool
    ensures { result ≡ may_be known.now value_type value.now }
{
    match value {
        Expr::Text(_) => is_type(value_type, ValueType::Text),
        Expr::Num(_) => !is_type(value_type, ValueType::Text),
        Expr::Name(name) => may_mean(value_type, meaning_of(known, name)),
    }
}

/// Whether what a name means is a table, if it is known.
fn may_mean_table(meaning: Option<Meaning>) -> bool
    ensures { result ≡ may_mean_table meaning }
{
    match meaning {
        None => true,
        Some(Meaning::Table) => true,
        Some(_) => false,
    }
}

/// Whether both sides of a comparison may be of this type.
fn both_may_be(known: &[Known], value_type: ValueType, cond: &Cond) -> bool
    ensures { result ≡ (may_be known.now value_type cond.now.left && may_be known.now value_type cond.now.right) }
{
    may_be(known, value_type, &cond.left) && may_be(known, value_type, &cond.right)
}

/// Whether the sides of a comparison may be compared so.
fn may_compare(known: &[Known], cond: &Cond) -> bool
    ensures { result ≡ may_compare known.now cond.now }
{
    match cond.op {
        Op::Less => both_may_be(known, ValueType::Number, cond),
        _ => {
            both_may_be(known, ValueType::Text, cond)
                || both_may_be(known, ValueType::Number, cond)
                || both_may_be(known, ValueType::Conn, cond)
        }
    }
}

/// Whether a name of this meaning may be assigned so.
fn may_assign(
    known: &[Known],
    meaning: Option<Meaning>,
    left: &Expr,
    tail: &Option<(Sign, Expr)>,
) -> bool
    ensures { result ≡ may_assign known.now meaning left.now tail.now }
{
    match meaning {
        None => true,
        Some(Meaning::Register(value_type)) => match tail {
            None => may_be(known, value_type, left),
            Some((_, right)) => {
                is_type(value_type, ValueType::Number)
                    && may_be(known, ValueType::Number, left)
                    && may_be(known, ValueType::Number, right)
            }
        },
        Some(_) => false,
    }
}

/// Whether each part of a send may be a text or a number.
fn may_be_parts(known: &[Known], parts: &[Expr]) -> bool
    ensures { result ≡ list_all (may_be_part known.now) parts.now }
{
    for part in parts {
        if !may_be(known, ValueType::Text, part) && !may_be(known, ValueType::Number, part) {
            return false;
        }
    }
    true
}

/// Whether this key may be looked up in a table of this name.
fn may_look_up(known: &[Known], table: &Bytes, key: &Expr) -> bool
    ensures { result ≡ (may_mean_table (meaning_of known.now table.now) && may_be known.now ValueType.Text key.now) }
{
    may_mean_table(meaning_of(known, table)) && may_be(known, ValueType::Text, key)
}

/// Whether a message may be taken so.
fn may_take(known: &[Known], chan: &Chan) -> bool
    ensures { result ≡ may_take known.now chan.now }
{
    match chan {
        Chan::Bind(_) => true,
        Chan::From(conn) => may_be(known, ValueType::Conn, conn),
    }
}

/// Whether the names and written values of a statement are of the types that their places ask for.
pub fn is_well_typed(known: &[Known], kind: &Kind) -> bool
    ensures { result ≡ is_well_typed known.now (out-Kind kind.now) }
{
    match kind {
        Kind::Recv { chan, .. } => may_take(known, chan),
        Kind::Send { conn, parts } => {
            may_be(known, ValueType::Conn, conn) && may_be_parts(known, parts.as_slice())
        }
        Kind::Pick { .. } => true,
        Kind::Assign { name, left, tail } => may_assign(known, meaning_of(known, name), left, tail),
        Kind::If { cond, .. } => may_compare(known, cond),
        Kind::Either { .. } => true,
        Kind::Assume { cond } => may_compare(known, cond),
        Kind::Put { table, key, value } => {
            may_look_up(known, table, key) && may_be(known, ValueType::Text, value)
        }
        Kind::Lookup { table, key, .. } => may_look_up(known, table, key),
        Kind::Delete { table, key } => may_look_up(known, table, key),
    }
}
