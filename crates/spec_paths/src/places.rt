//! The place of a statement by its number.

ghost use Rattle.std.specs.Prelude.{◌≡◌, ◌++◌, List, map, slice_get, ℕ};
ghost use Rattle.std.specs.List.{concat};
ghost use Rattle.spec_rules.specs.Bad.{places_in, places_in_start, stmt_places};
ghost use Rattle.spec_paths.specs.Crowded.{block_of_case};
ghost use Rattle.spec_paths.specs.Sought.{IsSought, places_of_stmt};

use spec_model::tree::{Block, Case, Kind, Spec, Stmt};
use sqlite_items::Items;

/// The greatest number of statements.
const MOST_STMTS: usize = 1024;

/// What was found where so many places were to be skipped.
#[derive(Clone, Copy)]
enum Sought {
    /// The place behind those skipped.
    Found(usize),
    /// The places ended, and so many are still to be skipped.
    Behind(usize),
}

/// The place in a block behind so many.
#[cycle(sought)]
fn seek_in_block(block: &Block, skipped: usize) -> Sought
    ensures { IsSought (places_in block.now) skipped result }
{
    let mut left = skipped;
    for stmt in block.stmts.as_slice() {
        match seek_in_stmt(stmt, left) {
            Sought::Found(at) => return Sought::Found(at),
            Sought::Behind(more) => left = more,
        }
    }
    Sought::Behind(left)
}

/// The place of the statement or of one in it.
#[cycle(sought)]
fn seek_in_stmt(stmt: &Stmt, skipped: usize) -> Sought
    ensures { IsSought (places_of_stmt stmt.now) skipped result }
{
    if skipped == 0 {
        return Sought::Found(stmt.at);
    }
    let left = skipped - 1;
    match &stmt.kind {
        Kind::Recv { cases, rest, .. } => seek_on(seek_in_cases(cases, left), rest),
        Kind::If { yes, no, .. } => seek_on(seek_in_block(yes, left), no),
        Kind::Lookup { found, missing, .. } => seek_on(seek_in_block(found, left), missing),
        Kind::Either { arms } => seek_in_arms(arms, left),
        _ => Sought::Behind(left),
    }
}

/// What was sought in one list of places is sought in a block behind it, unless it was found.
#[cycle(sought)]
fn seek_on(first: Sought, second: &Block) -> Sought
    ensures { (places : List ℕ) (skipped : ℕ) → IsSought places skipped first → IsSought (places ++ places_in second.now) skipped result }
{
    match first {
        Sought::Found(at) => Sought::Found(at),
        Sought::Behind(left) => seek_in_block(second, left),
    }
}

/// The place in the cases behind so many.
#[cycle(sought)]
fn seek_in_cases(cases: &Items<Case>, skipped: usize) -> Sought
    ensures { IsSought (concat (map (λ case. places_in (block_of_case case)) cases.now)) skipped result }
{
    let mut left = skipped;
    for case in cases.as_slice() {
        match seek_in_block(&case.block, left) {
            Sought::Found(at) => return Sought::Found(at),
            Sought::Behind(more) => left = more,
        }
    }
    Sought::Behind(left)
}

/// The place in the arms behind so many.
#[cycle(sought)]
fn seek_in_arms(arms: &Items<Block>, skipped: usize) -> Sought
    ensures { IsSought (concat (map places_in arms.now)) skipped result }
{
    let mut left = skipped;
    for arm in arms.as_slice() {
        match seek_in_block(arm, left) {
            Sought::Found(at) => return Sought::Found(at),
            Sought::Behind(more) => left = more,
        }
    }
    Sought::Behind(left)
}

/// The place in `start` behind so many.
fn seek_in_start(start: &Option<Block>, skipped: usize) -> Sought
    ensures { IsSought (places_in_start start.now) skipped result }
{
    match start {
        None => Sought::Behind(skipped),
        Some(block) => seek_in_block(block, skipped),
    }
}

/// The place of the statement behind the first 1,024, in the order of the text; None where there are no more. It takes no
/// memory, and counts no further. Definition: own.
pub fn stmt_past_limit(spec: &Spec) -> Option<usize>
    ensures { result ≡ slice_get (stmt_places spec.now) 1024 }
{
    match seek_on(seek_in_start(&spec.start, MOST_STMTS), &spec.body) {
        Sought::Found(at) => Some(at),
        Sought::Behind(_) => None,
    }
}
