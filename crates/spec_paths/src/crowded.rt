//! Where too many statements that compare may be passed.

ghost use Rattle.std.specs.Prelude.{◌≡◌, ◌≤◌, ◌∷◌, IfNone, IfSome, List, map, ℕ};
ghost use Rattle.spec_model.specs.declared.tree.Block.{Block};
ghost use Rattle.spec_model.specs.declared.tree.Stmt.{Stmt};
ghost use Rattle.spec_model.specs.Config.{kind_of, stmts_of};
ghost use Rattle.spec_rules.specs.declared.fault.Fault.{Fault};
ghost use Rattle.spec_rules.specs.Bad.{IsBad, begins_with_recv};
ghost use Rattle.spec_rules.specs.Path.{PathPasses};
ghost use Rattle.spec_paths.specs.Ahead.{IsAhead, IsAheadInOne};
ghost use Rattle.spec_paths.specs.Bounds.{IsGreatest, IsLeast};
ghost use Rattle.spec_paths.specs.Crowded.{IsCrowdedInStart, block_of_case};

use crate::ahead::{Ahead, lesser};
use spec_model::tree::{Block, Case, Kind, Spec, Stmt};
use sqlite_items::Items;

/// What is ahead of a block, where the most behind it is known.
#[cycle(ahead)]
fn ahead_of_block(block: &Block, most_behind: Option<u8>) -> Ahead
    ensures { (behind : List Stmt) → IsGreatest (PathPasses behind) most_behind → IsAhead (stmts_of block.now) behind result }
{
    let stmts = block.stmts.as_slice();
    let mut ahead = Ahead {
        most: most_behind,
        crowded: None,
    };
    for place in (0..stmts.len()).rev() {
        ahead = ahead_of_stmt(&stmts[place], ahead);
    }
    ahead
}

/// What is ahead of a statement, where what is ahead of those behind it is known.
#[cycle(ahead)]
fn ahead_of_stmt(stmt: &Stmt, later: Ahead) -> Ahead
    ensures { (stmts behind : List Stmt) → IsAhead stmts behind later → IsAhead (stmt.now ∷ stmts) behind result }
{
    match &stmt.kind {
        Kind::Recv { cases, rest, .. } => {
            let inside = ahead_of_cases(cases, later.most).or(ahead_of_block(rest, later.most));
            Ahead {
                most: Some(0),
                crowded: lesser(inside.crowded_from(stmt.at), later.crowded),
            }
        }
        Kind::If { yes, no, .. } => {
            let inside = ahead_of_block(yes, later.most).or(ahead_of_block(no, later.most));
            inside.past_comparison().before(later)
        }
        Kind::Lookup { found, missing, .. } => {
            let inside = ahead_of_block(found, later.most).or(ahead_of_block(missing, later.most));
            inside.past_comparison().before(later)
        }
        Kind::Either { arms } => ahead_of_arms(arms, later.most).before(later),
        Kind::Assume { .. } | Kind::Put { .. } | Kind::Delete { .. } => later.past_comparison(),
        Kind::Send { .. } | Kind::Pick { .. } | Kind::Assign { .. } => later,
    }
}

/// What is ahead where the server goes on in one of the cases.
#[cycle(ahead)]
fn ahead_of_cases(cases: &Items<Case>, most_behind: Option<u8>) -> Ahead
    ensures { (behind : List Stmt) → IsGreatest (PathPasses behind) most_behind → IsAheadInOne (map block_of_case cases.now) behind result }
{
    let mut ahead = Ahead::nowhere();
    for case in cases.as_slice() {
        ahead = ahead.or(ahead_of_block(&case.block, most_behind));
    }
    ahead
}

/// What is ahead where the server goes on in one of the arms.
#[cycle(ahead)]
fn ahead_of_arms(arms: &Items<Block>, most_behind: Option<u8>) -> Ahead
    ensures { (behind : List Stmt) → IsGreatest (PathPasses behind) most_behind → IsAheadInOne arms.now behind result }
{
    let mut ahead = Ahead::nowhere();
    for arm in arms.as_slice() {
        ahead = ahead.or(ahead_of_block(arm, most_behind));
    }
    ahead
}

/// Whether a block begins with a `recv`.
fn begins_with_recv(block: &Block) -> bool
    ensures { result ≡ begins_with_recv (stmts_of block.now) }
{
    match block.stmts.as_slice().first() {
        Some(stmt) => matches!(&stmt.kind, Kind::Recv { .. }),
        None => false,
    }
}

/// The least place in `start` that is crowded, `start` itself among them.
fn crowded_in_start(start: &Option<Block>) -> Option<usize>
    ensures { IsLeast (IsCrowdedInStart start.now) result }
{
    match start {
        None => None,
        Some(block) => ahead_of_block(block, Some(0)).crowded_from(block.at),
    }
}

/// The least place from which too many statements that compare may be passed up to the next `recv`; None where there is none. It
/// takes no memory. Definition: own.
pub fn first_crowded(spec: &Spec) -> Option<usize>
    ensures some { IfSome result (λ at. IsBad spec.now Fault.TooManyCompares at × ((other : ℕ) → IsBad spec.now Fault.TooManyCompares other → at ≤ other)) }
    ensures none { IfNone result ((at : ℕ) → ¬ IsBad spec.now Fault.TooManyCompares at) }
{
    if !begins_with_recv(&spec.body) {
        return None;
    }
    let in_loop = ahead_of_block(&spec.body, Some(0));
    lesser(crowded_in_start(&spec.start), in_loop.crowded)
}
