//! Written connections.

ghost use Rattle.std.specs.Prelude.{◌≡◌};
ghost use Rattle.std.specs.List.{list_any};
ghost use Rattle.spec_model.specs.declared.tree.Kind.{out-Kind};
ghost use Rattle.spec_rules.specs.Bad.{is_past_conns, names_past_conns};
ghost use Rattle.spec_rules.specs.Names.{conns_assigned, conns_compared, means_conn, names_conn};

use crate::known::meaning_of;
use spec_model::tree::{Chan, Cond, Expr, Kind, Sign};
use spec_rules::names::{Known, Meaning, ValueType};

/// Whether a written value is a number that is no connection.
pub fn is_past_conns(conns: u16, value: &Expr) -> bool
    ensures { result ≡ is_past_conns conns value.now }
{
    match value {
        Expr::Num(number) => u64::from(conns) <= *number,
        _ => false,
    }
}

/// Whether what a name means is a connection.
fn means_conn(meaning: Option<Meaning>) -> bool
    ensures { result ≡ means_conn meaning }
{
    match meaning {
        Some(Meaning::Register(ValueType::Conn)) => true,
        Some(Meaning::Local(ValueType::Conn)) => true,
        _ => false,
    }
}

/// Whether a written value is the name of a connection.
fn names_conn(known: &[Known], value: &Expr) -> bool
    ensures { result ≡ names_conn known.now value.now }
{
    match value {
        Expr::Name(name) => means_conn(meaning_of(known, name)),
        _ => false,
    }
}

/// Whether a comparison with a connection has a number that is none.
fn compares_past_conns(conns: u16, known: &[Known], cond: &Cond) -> bool
    ensures { result ≡ list_any (is_past_conns conns) (conns_compared known.now cond.now) }
{
    if names_conn(known, &cond.left) || names_conn(known, &cond.right) {
        is_past_conns(conns, &cond.left) || is_past_conns(conns, &cond.right)
    } else {
        false
    }
}

/// Whether a register of connections is set to a number that is none.
fn assigns_past_conns(conns: u16, meaning: Option<Meaning>, left: &Expr) -> bool
    ensures { result ≡ list_any (is_past_conns conns) (conns_assigned meaning left.now) }
{
    match meaning {
        Some(Meaning::Register(ValueType::Conn)) => is_past_conns(conns, left),
        _ => false,
    }
}

/// Whether a statement has written a number for a connection that is none.
pub fn names_past_conns(conns: u16, known: &[Known], kind: &Kind) -> bool
    ensures { result ≡ names_past_conns conns known.now (out-Kind kind.now) }
{
    match kind {
        Kind::Recv { chan, .. } => match chan {
            Chan::Bind(_) => false,
            Chan::From(conn) => is_past_conns(conns, conn),
        },
        Kind::Send { conn, .. } => is_past_conns(conns, conn),
        Kind::Assign { name, left, tail } => match tail {
            None => assigns_past_conns(conns, meaning_of(known, name), left),
            Some(_) => false,
        },
        Kind::If { cond, .. } => compares_past_conns(conns, known, cond),
        Kind::Assume { cond } => compares_past_conns(conns, known, cond),
        _ => false,
    }
}
