//! The parts of statements that hold no statements.

ghost use Rattle.std.specs.Prelude.{◌≡◌, ◌∷◌, IfOk, List, drop};
ghost use Rattle.spec_model.specs.Grammar as grammar;
ghost use Rattle.spec_print.specs.Listed.{Puts};

use crate::page::Page;
use spec_model::Memory;
use spec_model::token::{Keyword, Punctuation};
use spec_model::tree::{Alphabet, Chan, Cond, Decl, Expr, First, HoleKind, Item, Op, Sign};

/// A text, a number or a name.
pub(crate) fn atom(page: Page, value: &Expr) -> Result<Page, Memory>
    ensures { IfOk result (λ after. Puts page (λ next. grammar.atom value.now ∷ next) after) }
{
    match value {
        Expr::Text(text) => page.quotation(text.as_slice()),
        Expr::Num(number) => page.number(*number),
        Expr::Name(name) => page.name(name.as_slice()),
    }
}

/// A connection, which is no text.
pub(crate) fn conn(page: Page, value: &Expr) -> Result<Page, Memory>
    ensures { IfOk result (λ after. Puts page (λ next. grammar.conn_of value.now ∷ next) after) }
{
    match value {
        Expr::Text(_) => Ok(page),
        Expr::Num(number) => page.number(*number),
        Expr::Name(name) => page.name(name.as_slice()),
    }
}

/// A part of what is sent, which is no number.
fn part(page: Page, value: &Expr) -> Result<Page, Memory>
    ensures { IfOk result (λ after. Puts page (λ next. grammar.part value.now ∷ next) after) }
{
    match value {
        Expr::Text(text) => page.quotation(text.as_slice()),
        Expr::Num(_) => Ok(page),
        Expr::Name(name) => page.name(name.as_slice()),
    }
}

pub(crate) fn parts(mut page: Page, parts: &[Expr]) -> Result<Page, Memory>
    ensures { IfOk result (λ after. Puts page (grammar.parts parts.now) after) }
{
    for value in parts {
        page = part(page, value)?;
    }
    Ok(page)
}

fn hole_kind(page: Page, kind: HoleKind) -> Result<Page, Memory>
    ensures { IfOk result (λ after. Puts page (λ next. grammar.hole_kind kind ∷ next) after) }
{
    match kind {
        HoleKind::Word => page.word(Keyword::Word),
        HoleKind::Num => page.word(Keyword::Num),
        HoleKind::Rest => page.word(Keyword::Rest),
    }
}

fn item(page: Page, item: &Item) -> Result<Page, Memory>
    ensures { IfOk result (λ after. Puts page (grammar.item item.now) after) }
{
    match item {
        Item::Lit(text) => page.quotation(text.as_slice()),
        Item::Hole(name, kind) => {
            let page = page.name(name.as_slice())?.sign(Punctuation::Colon)?;
            hole_kind(page, *kind)
        }
    }
}

pub(crate) fn items(mut page: Page, items: &[Item]) -> Result<Page, Memory>
    ensures { IfOk result (λ after. Puts page (grammar.items items.now) after) }
{
    for part in items {
        page = item(page, part)?;
    }
    Ok(page)
}

fn comparison(page: Page, op: Op) -> Result<Page, Memory>
    ensures { IfOk result (λ after. Puts page (λ next. grammar.comparison op ∷ next) after) }
{
    match op {
        Op::Same => page.sign(Punctuation::Same),
        Op::Other => page.sign(Punctuation::Other),
        Op::Less => page.sign(Punctuation::Less),
    }
}

pub(crate) fn cond(page: Page, cond: &Cond) -> Result<Page, Memory>
    ensures { IfOk result (λ after. Puts page (grammar.cond cond.now) after) }
{
    let page = atom(page, &cond.left)?;
    let page = comparison(page, cond.op)?;
    let page = atom(page, &cond.right)?;
    Ok(page)
}

pub(crate) fn alphabet(page: Page, alphabet: Alphabet) -> Result<Page, Memory>
    ensures { IfOk result (λ after. Puts page (λ next. grammar.alphabet_word alphabet ∷ next) after) }
{
    match alphabet {
        Alphabet::Hex => page.word(Keyword::Hex),
        Alphabet::Alnum => page.word(Keyword::Alnum),
        Alphabet::Any => page.word(Keyword::Any),
    }
}

/// The rest of a sum or a difference, where there is one.
pub(crate) fn tail(page: Page, tail: &Option<(Sign, Expr)>) -> Result<Page, Memory>
    ensures { IfOk result (λ after. Puts page (grammar.tail tail.now) after) }
{
    match tail {
        None => Ok(page),
        Some((Sign::Plus, right)) => atom(page.sign(Punctuation::Plus)?, right),
        Some((Sign::Minus, right)) => atom(page.sign(Punctuation::Minus)?, right),
    }
}

/// Which connection a message is taken from.
pub(crate) fn chan(page: Page, chan: &Chan) -> Result<Page, Memory>
    ensures { IfOk result (λ after. Puts page (grammar.chan chan.now) after) }
{
    match chan {
        Chan::Bind(name) => page.name(name.as_slice()),
        Chan::From(value) => conn(page.word(Keyword::From)?, value),
    }
}

fn declaration(page: Page, decl: &Decl) -> Result<Page, Memory>
    ensures { IfOk result (λ after. Puts page (grammar.declaration decl.now.at decl.now.name decl.now.first) after) }
{
    let name = decl.name.as_slice();
    match &decl.first {
        First::Text(text) => {
            let page = page.word(Keyword::Text)?.name(name)?;
            page.sign(Punctuation::Becomes)?.quotation(text.as_slice())
        }
        First::Num(number) => {
            let page = page.word(Keyword::Num)?.name(name)?;
            page.sign(Punctuation::Becomes)?.number(*number)
        }
        First::Conn(number) => {
            let page = page.word(Keyword::Conn)?.name(name)?;
            page.sign(Punctuation::Becomes)?.number(*number)
        }
        First::Table => page.word(Keyword::Table)?.name(name),
    }
}

pub(crate) fn declarations(mut page: Page, decls: &[Decl]) -> Result<Page, Memory>
    ensures { IfOk result (λ after. Puts page (grammar.decls decls.now) after) }
{
    for decl in decls {
        page = declaration(page, decl)?;
    }
    Ok(page)
}
