//! What is bad in a specification, by its parts.

ghost use Rattle.std.specs.Prelude.{◌≡◌, IfOk, OnOk, true};
ghost use Rattle.spec_rules.specs.Bad.{IsBad};
ghost use Rattle.spec_check.specs.Least.{IsFirst};
ghost use Rattle.spec_check.specs.Whole.{IsBadHeader, IsBadInStart, IsBadStmt, IsCrowded, IsNoTake, IsTooLong};

use crate::decls::decls_fault;
use crate::found::{Found, Tested, earlier, found_at};
use crate::known::names_declared;
use crate::sizes::is_recv;
use crate::statement::Rules;
use crate::walk::block_fault;
use spec_model::Memory;
use spec_model::tree::{Block, Spec};
use spec_paths::{first_crowded, stmt_past_limit};
use spec_rules::fault::{Fault, Limit};
use spec_rules::names::Known;
use std::alloc::Global;

/// The greatest limit of a message, in bytes.
const GREATEST_LIMIT: u16 = 4_096;
/// The greatest number of connections.
const MOST_CONNS: u16 = 16;

/// The first fault of the clauses `frame` and `conns`.
fn header_fault(spec: &Spec) -> Option<Found>
    ensures { IsFirst (IsBadHeader spec.now) result }
{
    let message = Tested {
        fault: Fault::Limit(Limit::Message),
        stands: spec.shape.limit < 1 || spec.shape.limit > GREATEST_LIMIT,
    };
    let conns = Tested {
        fault: Fault::Limit(Limit::Conns),
        stands: spec.shape.conns < 1 || spec.shape.conns > MOST_CONNS,
    };
    earlier(
        found_at(message, spec.frame_at),
        found_at(conns, spec.conns_at),
    )
}

/// The fault of a loop that does not begin with a `recv`.
fn no_take(body: &Block) -> Option<Found>
    ensures { IsFirst (IsNoTake body.now) result }
{
    let (stands, at) = match body.stmts.as_slice() {
        [] => (true, body.at),
        [first, ..] => (!is_recv(&first.kind), first.at),
    };
    let tested = Tested {
        fault: Fault::NoTake,
        stands,
    };
    found_at(tested, at)
}

/// The first fault in `start`.
fn start_fault(
    alloc: Global,
    conns: u16,
    known: &mut Vec<Known>,
    start: &Option<Block>,
) -> Result<Option<Found>, Memory>
    ensures first { IfOk result (λ found. IsFirst (IsBadInStart (record { conns = conns; in_start = true }) known.old.items start.now) found) }
    ensures kept { OnOk result (known.new.items ≡ known.old.items) }
{
    let rules = Rules {
        conns,
        in_start: true,
    };
    match start {
        None => Ok(None),
        Some(block) => block_fault(alloc, rules, known, Vec::new(alloc), block),
    }
}

/// The first fault of the statements.
fn stmts_fault(alloc: Global, spec: &Spec) -> Result<Option<Found>, Memory>
    ensures { IfOk result (λ found. IsFirst (IsBadStmt spec.now) found) }
{
    let mut known = names_declared(alloc, spec.decls.as_slice())?;
    let in_start = start_fault(alloc, spec.shape.conns, &mut known, &spec.start)?;
    let rules = Rules {
        conns: spec.shape.conns,
        in_start: false,
    };
    let in_loop = block_fault(alloc, rules, &mut known, Vec::new(alloc), &spec.body)?;
    Ok(earlier(in_start, in_loop))
}

/// The fault of too many statements.
fn length_fault(spec: &Spec) -> Option<Found>
    ensures { IsFirst (IsTooLong spec.now) result }
{
    let at = stmt_past_limit(spec)?;
    Some(Found {
        fault: Fault::Limit(Limit::Stmts),
        at,
    })
}

/// The first fault of too many statements that compare.
fn path_fault(spec: &Spec) -> Option<Found>
    ensures { IsFirst (IsCrowded spec.now) result }
{
    match first_crowded(spec) {
        None => None,
        Some(at) => Some(Found {
            fault: Fault::TooManyCompares,
            at,
        }),
    }
}

/// The first fault of a specification.
pub fn first_fault(alloc: Global, spec: &Spec) -> Result<Option<Found>, Memory>
    ensures { IfOk result (λ found. IsFirst (IsBad spec.now) found) }
{
    let in_stmts = stmts_fault(alloc, spec)?;
    let in_front = earlier(
        header_fault(spec),
        decls_fault(spec.shape.conns, spec.decls.as_slice()),
    );
    let in_whole = earlier(
        no_take(&spec.body),
        earlier(length_fault(spec), path_fault(spec)),
    );
    Ok(earlier(earlier(in_front, in_stmts), in_whole))
}
