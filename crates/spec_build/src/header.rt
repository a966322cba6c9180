//! Declarations, and specifications as a whole.

ghost use Rattle.std.specs.Prelude.{◌≡◌, ◌≤◌, [], IfOk};
ghost use Rattle.spec_model.specs.Grammar.{kept_number};
ghost use Rattle.spec_build.specs.Reader.{Gives};
ghost use Rattle.spec_build.specs.Whole as spec;

use crate::fault::Fault;
use crate::statements::statements;
use crate::tokens::Tokens;
use spec_model::event::{Framing, Shape};
use spec_model::list::List;
use spec_model::token::{Keyword, Punctuation, Token};
use spec_model::tree::{Block, Decl, First, Spec};

/// The most blocks that stand inside one another.
const MAX_BLOCKS: usize = 32;

fn framing(tokens: &mut Tokens<'_>) -> Result<Framing, Fault>
    ensures { Gives (spec.framing tokens.old) result tokens.new }
{
    match &tokens.next()?.token {
        Token::Keyword(Keyword::Line) => Ok(Framing::Line),
        Token::Keyword(Keyword::Len16) => Ok(Framing::Len16),
        _ => Err(Fault::Shape),
    }
}

/// A number of the header, of which 65,535 is kept where it is greater.
fn kept(tokens: &mut Tokens<'_>) -> Result<u16, Fault>
    ensures { Gives (spec.kept tokens.old) result tokens.new }
{
    let number = tokens.number()?;
    Ok(number.min(65_535) as u16)
}

/// What this word declares, behind the name.
fn first(tokens: &mut Tokens<'_>, keyword: Keyword) -> Result<First, Fault>
    ensures { Gives (spec.first_by keyword tokens.old) result tokens.new }
{
    match keyword {
        Keyword::Text => {
            tokens.sign(Punctuation::Becomes)?;
            Ok(First::Text(tokens.text()?))
        }
        Keyword::Num => {
            tokens.sign(Punctuation::Becomes)?;
            Ok(First::Num(tokens.number()?))
        }
        Keyword::Conn => {
            tokens.sign(Punctuation::Becomes)?;
            Ok(First::Conn(tokens.number()?))
        }
        Keyword::Table => Ok(First::Table),
        _ => Err(Fault::Shape),
    }
}

#[tactic(auto, unfolding(crate::specs::Whole::declaration))]
fn declaration(tokens: &mut Tokens<'_>) -> Result<Decl, Fault>
    ensures { Gives (spec.declaration tokens.old) result tokens.new }
{
    let (at, keyword) = tokens.any_word()?;
    let name = tokens.name()?;
    let first = first(tokens, keyword)?;
    Ok(Decl { at, name, first })
}

/// All declarations that come next.
fn declarations(tokens: &mut Tokens<'_>) -> Result<List<Decl>, Fault>
    ensures { Gives (spec.declarations tokens.old) result tokens.new }
{
    let mut decls = List::new(tokens.alloc());
    for _turn in 0..tokens.left() {
        if !tokens.sees_declaration() {
            return Ok(decls);
        }
        decls.push(declaration(tokens)?)?;
    }
    Ok(decls)
}

/// A block behind this word, which stands at its place.
#[tactic(auto, unfolding(crate::specs::Whole::block_behind))]
fn block_behind(tokens: &mut Tokens<'_>, keyword: Keyword) -> Result<Block, Fault>
    ensures { Gives (spec.block_behind keyword tokens.old) result tokens.new }
{
    let at = tokens.word(keyword)?;
    tokens.sign(Punctuation::Open)?;
    let stmts = statements(tokens, MAX_BLOCKS - 1)?;
    Ok(Block { at, stmts })
}

/// The block that is done before the loop, where there is one.
#[tactic(auto, unfolding(crate::specs::Whole::start))]
fn start(tokens: &mut Tokens<'_>) -> Result<Option<Block>, Fault>
    ensures { Gives (spec.start tokens.old) result tokens.new }
{
    if !tokens.sees_word(Keyword::Start) {
        return Ok(None);
    }
    Ok(Some(block_behind(tokens, Keyword::Start)?))
}

/// A whole specification.
#[tactic(auto, unfolding(crate::specs::Whole::specification))]
pub(crate) fn specification(tokens: &mut Tokens<'_>) -> Result<Spec, Fault>
    ensures { Gives (spec.specification tokens.old) result tokens.new }
{
    let frame_at = tokens.word(Keyword::Frame)?;
    let framing = framing(tokens)?;
    let limit = kept(tokens)?;
    let conns_at = tokens.word(Keyword::Conns)?;
    let conns = kept(tokens)?;
    let decls = declarations(tokens)?;
    let start = start(tokens)?;
    let body = block_behind(tokens, Keyword::Loop)?;
    Ok(Spec {
        shape: Shape {
            framing,
            limit,
            conns,
        },
        frame_at,
        conns_at,
        decls,
        start,
        body,
    })
}
