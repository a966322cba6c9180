//! Statements and the blocks that they stand in.

ghost use Rattle.std.specs.Prelude.{◌≡◌, ◌∷◌, IfOk, List, true};
ghost use Rattle.spec_model.specs.Grammar as grammar;
ghost use Rattle.spec_model.specs.declared.token.Keyword.TheVariants as words;
ghost use Rattle.spec_model.specs.declared.token.Punctuation.TheVariants as signs;
ghost use Rattle.spec_model.specs.declared.token.Token.TheVariants as tokens;
ghost use Rattle.spec_print.specs.Listed as spec;
ghost use Rattle.spec_print.specs.Listed.{Puts};

use crate::page::Page;
use crate::parts::{alphabet, atom, chan, cond, conn, items, parts, tail};
use spec_model::Memory;
use spec_model::list::{Bytes, List};
use spec_model::token::{Keyword, Punctuation};
use spec_model::tree::{Alphabet, Block, Case, Chan, Cond, Expr, Kind, Sign, Stmt};
use sqlite_items::Items;

/// Statements between braces.
#[cycle(block)]
pub(crate) fn block(page: Page, block: &Block) -> Result<Page, Memory>
    ensures { IfOk result (λ after. Puts page (spec.block block.now) after) }
{
    let page = page.sign(Punctuation::Open)?;
    let page = statements(page, &block.stmts)?;
    page.sign(Punctuation::Close)
}

#[cycle(block)]
fn statements(mut page: Page, stmts: &Items<Stmt>) -> Result<Page, Memory>
    ensures { IfOk result (λ after. Puts page (spec.stmts stmts.now) after) }
{
    for stmt in stmts.as_slice() {
        page = statement(page, stmt)?;
    }
    Ok(page)
}

#[cycle(block)]
fn statement(page: Page, stmt: &Stmt) -> Result<Page, Memory>
    ensures { IfOk result (λ after. Puts page (spec.stmt stmt.now) after) }
{
    match &stmt.kind {
        Kind::Recv {
            chan,
            cases,
            other,
            rest,
        } => {
            let page = all_cases(recv(page, chan)?, cases)?;
            let page = block(others(page, other)?, rest)?;
            page.sign(Punctuation::Close)
        }
        Kind::Send { conn, parts } => send(page, conn, parts),
        Kind::Pick {
            name,
            len,
            alphabet,
        } => pick(page, name, *len, *alphabet),
        Kind::Assign { name, left, tail } => assign(page, name, left, tail),
        Kind::If { cond, yes, no } => {
            let page = block(test(page, cond)?, yes)?;
            else_part(page, no)
        }
        Kind::Either { arms } => all_arms(page.word(Keyword::Either)?, arms),
        Kind::Assume { cond } => assume(page, cond),
        Kind::Put { table, key, value } => put(page, table, key, value),
        Kind::Lookup {
            table,
            key,
            name,
            found,
            missing,
        } => {
            let page = block(get(page, table, key, name)?, found)?;
            else_part(page, missing)
        }
        Kind::Delete { table, key } => delete(page, table, key),
    }
}

#[cycle(block)]
fn all_cases(mut page: Page, cases: &Items<Case>) -> Result<Page, Memory>
    ensures { IfOk result (λ after. Puts page (spec.cases cases.now) after) }
{
    for case in cases.as_slice() {
        page = one_case(page, case)?;
    }
    Ok(page)
}

#[cycle(block)]
fn one_case(page: Page, case: &Case) -> Result<Page, Memory>
    ensures { IfOk result (λ after. Puts page (spec.case_ case.now) after) }
{
    let page = items(page.word(Keyword::Case)?, case.items.as_slice())?;
    block(page, &case.block)
}

#[cycle(block)]
fn all_arms(mut page: Page, arms: &Items<Block>) -> Result<Page, Memory>
    ensures { IfOk result (λ after. Puts page (spec.arms true arms.now) after) }
{
    let mut is_first = true;
    for arm in arms.as_slice() {
        page = block(parted(page, is_first)?, arm)?;
        is_first = false;
    }
    Ok(page)
}

/// The block behind `else`, which is left out where it has no statements.
#[cycle(block)]
fn else_part(page: Page, otherwise: &Block) -> Result<Page, Memory>
    ensures { IfOk result (λ after. Puts page (spec.else_part otherwise.now) after) }
{
    if otherwise.stmts.is_empty() {
        return Ok(page);
    }
    block(page.word(Keyword::Else)?, otherwise)
}

/// A block behind this word.
pub(crate) fn block_behind(page: Page, keyword: Keyword, after_word: &Block) -> Result<Page, Memory>
    ensures { IfOk result (λ after. Puts page (spec.block_after keyword after_word.now) after) }
{
    block(page.word(keyword)?, after_word)
}

/// What stands before an arm.
fn parted(page: Page, is_first: bool) -> Result<Page, Memory>
    ensures { IfOk result (λ after. Puts page (spec.or_unless is_first) after) }
{
    if is_first {
        Ok(page)
    } else {
        page.word(Keyword::Or)
    }
}

/// A `recv` up to its first case.
fn recv(page: Page, from: &Chan) -> Result<Page, Memory>
    ensures { IfOk result (λ after. Puts page (λ next. grammar.word words.Recv ∷ grammar.chan from.now (grammar.sign signs.Open ∷ next)) after) }
{
    let page = chan(page.word(Keyword::Recv)?, from)?;
    page.sign(Punctuation::Open)
}

/// What stands before the block of the messages that fit no case.
fn others(page: Page, name: &Bytes) -> Result<Page, Memory>
    ensures { IfOk result (λ after. Puts page (λ next. grammar.word words.Other ∷ grammar.name name.now ∷ next) after) }
{
    page.word(Keyword::Other)?.name(name.as_slice())
}

/// An `if` up to its first block.
fn test(page: Page, condition: &Cond) -> Result<Page, Memory>
    ensures { IfOk result (λ after. Puts page (λ next. grammar.word words.If ∷ grammar.cond condition.now next) after) }
{
    cond(page.word(Keyword::If)?, condition)
}

/// A `get` up to its first block.
fn get(page: Page, table: &Bytes, key: &Expr, name: &Bytes) -> Result<Page, Memory>
    ensures { IfOk result (λ after. Puts page (λ next. grammar.word words.Get ∷ grammar.name table.now ∷ grammar.atom key.now ∷ grammar.name name.now ∷ next) after) }
{
    let page = page.word(Keyword::Get)?.name(table.as_slice())?;
    keyed(page, key, name)
}

/// A key and a name.
fn keyed(page: Page, key: &Expr, name: &Bytes) -> Result<Page, Memory>
    ensures { IfOk result (λ after. Puts page (λ next. grammar.atom key.now ∷ grammar.name name.now ∷ next) after) }
{
    atom(page, key)?.name(name.as_slice())
}

/// A key and a value.
fn pair(page: Page, key: &Expr, value: &Expr) -> Result<Page, Memory>
    ensures { IfOk result (λ after. Puts page (λ next. grammar.atom key.now ∷ grammar.atom value.now ∷ next) after) }
{
    let page = atom(page, key)?;
    let page = atom(page, value)?;
    Ok(page)
}

fn send(page: Page, to: &Expr, what: &List<Expr>) -> Result<Page, Memory>
    ensures { IfOk result (λ after. Puts page (λ next. grammar.word words.Send ∷ grammar.conn_of to.now ∷ grammar.parts what.now next) after) }
{
    let page = conn(page.word(Keyword::Send)?, to)?;
    parts(page, what.as_slice())
}

fn pick(page: Page, name: &Bytes, len: u64, over: Alphabet) -> Result<Page, Memory>
    ensures { IfOk result (λ after. Puts page (λ next. grammar.word words.Pick ∷ grammar.name name.now ∷ grammar.some (tokens.Number len) ∷ grammar.alphabet_word over ∷ next) after) }
{
    let page = page
        .word(Keyword::Pick)?
        .name(name.as_slice())?
        .number(len)?;
    alphabet(page, over)
}

fn assign(
    page: Page,
    name: &Bytes,
    left: &Expr,
    more: &Option<(Sign, Expr)>,
) -> Result<Page, Memory>
    ensures { IfOk result (λ after. Puts page (λ next. grammar.word words.Set ∷ grammar.name name.now ∷ grammar.atom left.now ∷ grammar.tail more.now next) after) }
{
    let page = page.word(Keyword::Set)?.name(name.as_slice())?;
    tail(atom(page, left)?, more)
}

fn assume(page: Page, condition: &Cond) -> Result<Page, Memory>
    ensures { IfOk result (λ after. Puts page (λ next. grammar.word words.Where ∷ grammar.cond condition.now next) after) }
{
    cond(page.word(Keyword::Where)?, condition)
}

fn put(page: Page, table: &Bytes, key: &Expr, value: &Expr) -> Result<Page, Memory>
    ensures { IfOk result (λ after. Puts page (λ next. grammar.word words.Put ∷ grammar.name table.now ∷ grammar.atom key.now ∷ grammar.atom value.now ∷ next) after) }
{
    let page = page.word(Keyword::Put)?.name(table.as_slice())?;
    pair(page, key, value)
}

fn delete(page: Page, table: &Bytes, key: &Expr) -> Result<Page, Memory>
    ensures { IfOk result (λ after. Puts page (λ next. grammar.word words.Del ∷ grammar.name table.now ∷ grammar.atom key.now ∷ next) after) }
{
    atom(page.word(Keyword::Del)?.name(table.as_slice())?, key)
}
