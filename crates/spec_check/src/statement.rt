//! What is bad at one statement.

ghost use Rattle.std.specs.Prelude.{◌≡◌, ◌&&◌, IfOk};
ghost use Rattle.spec_model.specs.declared.tree.Kind.{out-Kind};
ghost use Rattle.spec_model.specs.Config.{kind_of};
ghost use Rattle.spec_rules.specs.Path.{is_recv};
ghost use Rattle.spec_check.specs.Least.{IsFirst, IsListedAt};
ghost use Rattle.spec_check.specs.Stmts.{stmt_tests};

use crate::conns::names_past_conns;
use crate::found::{Found, Tested, first_listed};
use crate::known::binds_again;
use crate::sizes::{
    has_bad_length, has_too_many_arms, has_too_many_cases, has_too_many_items, has_too_many_parts,
    is_recv,
};
use crate::types::is_well_typed;
use crate::values::{has_long_text, uses_unknown};
use spec_model::Memory;
use spec_model::tree::{Kind, Stmt};
use spec_rules::fault::{Fault, Limit};
use spec_rules::names::Known;
use std::alloc::Global;

/// What holds of all statements of a block of a specification.
#[derive(Clone, Copy, Debug, PartialEq, Eq)]
pub struct Rules {
    /// The number of connections.
    pub conns: u16,
    /// Whether they stand in `start`.
    pub in_start: bool,
}

/// Whether a statement of `start` takes a message.
fn takes_in_start(rules: Rules, kind: &Kind) -> bool
    ensures { result ≡ (rules.in_start && is_recv (out-Kind kind.now)) }
{
    rules.in_start && is_recv(kind)
}

/// The first fault that stands at the statement itself.
pub fn own_fault(
    alloc: Global,
    rules: Rules,
    known: &[Known],
    stmt: &Stmt,
) -> Result<Option<Found>, Memory>
    ensures { IfOk result (λ found. IsFirst (IsListedAt (stmt_tests rules known.now (kind_of stmt.now)) stmt.now.at) found) }
{
    let kind = &stmt.kind;
    let again = binds_again(alloc, known, kind)?;
    let tests = [
        Tested {
            fault: Fault::UnknownName,
            stands: uses_unknown(known, kind),
        },
        Tested {
            fault: Fault::DoubleName,
            stands: again,
        },
        Tested {
            fault: Fault::WrongType,
            stands: !is_well_typed(known, kind),
        },
        Tested {
            fault: Fault::TakeInStart,
            stands: takes_in_start(rules, kind),
        },
        Tested {
            fault: Fault::PickLength,
            stands: has_bad_length(kind),
        },
        Tested {
            fault: Fault::Limit(Limit::WrittenConn),
            stands: names_past_conns(rules.conns, known, kind),
        },
        Tested {
            fault: Fault::Limit(Limit::Cases),
            stands: has_too_many_cases(kind),
        },
        Tested {
            fault: Fault::Limit(Limit::Items),
            stands: has_too_many_items(kind),
        },
        Tested {
            fault: Fault::Limit(Limit::Parts),
            stands: has_too_many_parts(kind),
        },
        Tested {
            fault: Fault::Limit(Limit::Arms),
            stands: has_too_many_arms(kind),
        },
        Tested {
            fault: Fault::Limit(Limit::Text),
            stands: has_long_text(kind),
        },
    ];
    Ok(first_listed(&tests, stmt.at))
}
