//! Which specifications pick nothing.

ghost use Rattle.std.specs.Prelude.{◌≡◌, ◌↔◌, true};
ghost use Rattle.std.specs.List.{list_all};
ghost use Rattle.hypothesis.specs.Judged.{PicksNothing};
ghost use Rattle.hypothesis.specs.PickTest.{block_picks_nothing, case_picks_nothing, spec_picks_nothing, stmt_picks_nothing};

use spec_model::tree::{Block, Case, Kind, Spec, Stmt};

/// Whether no statement of a specification is a `pick`. It takes no memory. Definition: own.
pub fn picks_nothing(spec: &Spec) -> bool
    ensures { (result ≡ true) ↔ PicksNothing spec.now }
{
    passes(spec)
}

/// Whether neither `start` nor the loop picks anything.
fn passes(spec: &Spec) -> bool
    ensures { result ≡ spec_picks_nothing spec.now }
{
    match &spec.start {
        None => block_picks_nothing(&spec.body),
        Some(start) => block_picks_nothing(start) && block_picks_nothing(&spec.body),
    }
}

/// Whether the statements of a block pick nothing.
#[cycle(picks)]
fn block_picks_nothing(block: &Block) -> bool
    ensures { result ≡ block_picks_nothing block.now }
{
    for stmt in block.stmts.as_slice() {
        if !stmt_picks_nothing(stmt) {
            return false;
        }
    }
    true
}

/// Whether a statement is no pick, and picks nothing in its blocks.
#[cycle(picks)]
fn stmt_picks_nothing(stmt: &Stmt) -> bool
    ensures { result ≡ stmt_picks_nothing stmt.now }
{
    match &stmt.kind {
        Kind::Recv { cases, rest, .. } => {
            cases_pick_nothing(cases.as_slice()) && block_picks_nothing(rest)
        }
        Kind::Pick { .. } => false,
        Kind::If { yes, no, .. } => block_picks_nothing(yes) && block_picks_nothing(no),
        Kind::Either { arms } => arms_pick_nothing(arms.as_slice()),
        Kind::Lookup { found, missing, .. } => {
            block_picks_nothing(found) && block_picks_nothing(missing)
        }
        _ => true,
    }
}

/// Whether the cases pick nothing.
#[cycle(picks)]
fn cases_pick_nothing(cases: &[Case]) -> bool
    ensures { result ≡ list_all case_picks_nothing cases.now }
{
    for case in cases {
        if !block_picks_nothing(&case.block) {
            return false;
        }
    }
    true
}

/// Whether the arms pick nothing.
#[cycle(picks)]
fn arms_pick_nothing(arms: &[Block]) -> bool
    ensures { result ≡ list_all block_picks_nothing arms.now }
{
    for arm in arms {
        if !block_picks_nothing(arm) {
            return false;
        }
    }
    true
}
