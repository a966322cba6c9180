//! Printing specifications.

ghost use Rattle.std.specs.Prelude.{◌≡◌, ◌∷◌, IfOk, List};
ghost use Rattle.spec_model.specs.Canonical.{canonical};
ghost use Rattle.spec_model.specs.Grammar as grammar;
ghost use Rattle.spec_model.specs.declared.token.Keyword.TheVariants as words;
ghost use Rattle.spec_print.specs.Listed as listed;
ghost use Rattle.spec_print.specs.Listed.{Puts};

use crate::page::Page;
use crate::parts::declarations;
use crate::statements::block_behind;
use spec_model::Memory;
use spec_model::event::{Framing, Shape};
use spec_model::token::Keyword;
use spec_model::tree::{Block, Spec};
use std::alloc::Global;

/// The canonical spelling of a specification: each clause of the header, declaration and statement on a line of its own, two
/// spaces further in for each open brace; one space between the tokens of a line, but none beside a colon; an opening brace at
/// the end of its line, a closing one under the beginning of that line, `} else {` and `} or {` on one line; no empty `else`; LF
/// at the end. Definition: own.
pub fn print(alloc: Global, spec: &Spec) -> Result<Vec<u8>, Memory>
    ensures { IfOk result (λ text. text.items ≡ canonical spec.now) }
{
    whole(Page::new(alloc), spec)?.finish()
}

/// All tokens of the specification.
fn whole(page: Page, spec: &Spec) -> Result<Page, Memory>
    ensures { IfOk result (λ after. Puts page (listed.whole spec.now) after) }
{
    let page = header(page, &spec.shape)?;
    let page = declarations(page, spec.decls.as_slice())?;
    let page = start(page, &spec.start)?;
    let page = block_behind(page, Keyword::Loop, &spec.body)?;
    Ok(page)
}

/// The clauses of the framing and of the connections.
fn header(page: Page, shape: &Shape) -> Result<Page, Memory>
    ensures { IfOk result (λ after. Puts page (listed.header shape.now) after) }
{
    let page = framing(page.word(Keyword::Frame)?, shape.framing)?;
    let page = page.number(u64::from(shape.limit))?;
    let page = page.word(Keyword::Conns)?;
    let page = page.number(u64::from(shape.conns))?;
    Ok(page)
}

fn framing(page: Page, framing: Framing) -> Result<Page, Memory>
    ensures { IfOk result (λ after. Puts page (λ next. grammar.framing framing ∷ next) after) }
{
    match framing {
        Framing::Line => page.word(Keyword::Line),
        Framing::Len16 => page.word(Keyword::Len16),
    }
}

/// The block that is done before the loop, where there is one.
fn start(page: Page, start: &Option<Block>) -> Result<Page, Memory>
    ensures { IfOk result (λ after. Puts page (listed.start start.now) after) }
{
    match start {
        None => Ok(page),
        Some(block) => block_behind(page, Keyword::Start, block),
    }
}
