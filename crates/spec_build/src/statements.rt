//! Statements and the blocks that they stand in.

ghost use Rattle.std.specs.Prelude.{◌≡◌};
ghost use Rattle.spec_build.specs.Reader.{Gives};
ghost use Rattle.spec_build.specs.Statements as spec;

use crate::fault::Fault;
use crate::parts::{assign, assume, atom, chan, cond, delete, items, pick, put, send};
use crate::tokens::Tokens;
use spec_model::token::{Keyword, Punctuation};
use spec_model::tree::{Block, Case, Kind, Stmt};
use sqlite_items::Items;

/// A block that has blocks inside it no deeper than this.
#[cycle(block)]
#[tactic(auto, unfolding(crate::specs::Statements::block))]
pub(crate) fn block(tokens: &mut Tokens<'_>, depth: usize) -> Result<Block, Fault>
    ensures { Gives (spec.block depth tokens.old) result tokens.new }
{
    if depth == 0 {
        return Err(Fault::Shape);
    }
    let at = tokens.sign(Punctuation::Open)?;
    let stmts = statements(tokens, depth - 1)?;
    Ok(Block { at, stmts })
}

/// The statements up to the closing brace, which is taken too.
#[cycle(block)]
pub(crate) fn statements(tokens: &mut Tokens<'_>, depth: usize) -> Result<Items<Stmt>, Fault>
    ensures { Gives (spec.statements (spec.block depth) tokens.old) result tokens.new }
{
    let mut stmts = Items::new(tokens.alloc());
    for _turn in 0..tokens.left() {
        if tokens.eat_sign(Punctuation::Close) {
            return Ok(stmts);
        }
        let (at, keyword) = tokens.any_word()?;
        let kind = kind(tokens, depth, at, keyword)?;
        stmts.push(Stmt { at, kind })?;
    }
    Err(Fault::Shape)
}

/// A statement at this place, behind its first word.
#[cycle(block)]
fn kind(tokens: &mut Tokens<'_>, depth: usize, at: usize, keyword: Keyword) -> Result<Kind, Fault>
    ensures { Gives (spec.kind_by (spec.block depth) at keyword tokens.old) result tokens.new }
{
    match keyword {
        Keyword::Recv => recv(tokens, depth),
        Keyword::Send => send(tokens),
        Keyword::Pick => pick(tokens),
        Keyword::Set => assign(tokens),
        Keyword::If => conditional(tokens, depth, at),
        Keyword::Either => either(tokens, depth),
        Keyword::Where => assume(tokens),
        Keyword::Put => put(tokens),
        Keyword::Get => lookup(tokens, depth, at),
        Keyword::Del => delete(tokens),
        _ => Err(Fault::Shape),
    }
}

/// A `recv` behind its first word.
#[cycle(block)]
#[tactic(auto, unfolding(crate::specs::Statements::recv))]
fn recv(tokens: &mut Tokens<'_>, depth: usize) -> Result<Kind, Fault>
    ensures { Gives (spec.recv (spec.block depth) tokens.old) result tokens.new }
{
    let chan = chan(tokens)?;
    tokens.sign(Punctuation::Open)?;
    let cases = cases(tokens, depth)?;
    let other = tokens.name()?;
    let rest = block(tokens, depth)?;
    tokens.sign(Punctuation::Close)?;
    Ok(Kind::Recv {
        chan,
        cases,
        other,
        rest,
    })
}

/// The cases up to the word `other`, which is taken too.
#[cycle(block)]
fn cases(tokens: &mut Tokens<'_>, depth: usize) -> Result<Items<Case>, Fault>
    ensures { Gives (spec.cases (spec.block depth) tokens.old) result tokens.new }
{
    let mut cases = Items::new(tokens.alloc());
    for _turn in 0..tokens.left() {
        if tokens.eat_word(Keyword::Other) {
            return Ok(cases);
        }
        tokens.word(Keyword::Case)?;
        let items = items(tokens)?;
        let block = block(tokens, depth)?;
        cases.push(Case { items, block })?;
    }
    Err(Fault::Shape)
}

/// An `either` behind its first word.
#[cycle(block)]
#[tactic(auto, unfolding(crate::specs::Statements::either))]
fn either(tokens: &mut Tokens<'_>, depth: usize) -> Result<Kind, Fault>
    ensures { Gives (spec.either (spec.block depth) tokens.old) result tokens.new }
{
    let first = block(tokens, depth)?;
    tokens.word(Keyword::Or)?;
    let second = block(tokens, depth)?;
    let mut arms = Items::new(tokens.alloc());
    arms.push(first)?;
    arms.push(second)?;
    let arms = further_arms(tokens, depth, arms)?;
    Ok(Kind::Either { arms })
}

/// These arms and all that come next.
#[cycle(block)]
fn further_arms(
    tokens: &mut Tokens<'_>,
    depth: usize,
    mut arms: Items<Block>,
) -> Result<Items<Block>, Fault>
    ensures { Gives (spec.further_arms (spec.block depth) arms tokens.old) result tokens.new }
{
    for _turn in 0..tokens.left() {
        if !tokens.eat_word(Keyword::Or) {
            return Ok(arms);
        }
        arms.push(block(tokens, depth)?)?;
    }
    Ok(arms)
}

/// The block behind `else`, or an empty one at this place where there is no `else`.
#[cycle(block)]
#[tactic(auto, unfolding(crate::specs::Statements::else_part))]
fn else_part(tokens: &mut Tokens<'_>, depth: usize, at: usize) -> Result<Block, Fault>
    ensures { Gives (spec.else_part (spec.block depth) at tokens.old) result tokens.new }
{
    if tokens.eat_word(Keyword::Else) {
        block(tokens, depth)
    } else {
        let stmts = Items::new(tokens.alloc());
        Ok(Block { at, stmts })
    }
}

/// An `if` at this place, behind its first word.
#[cycle(block)]
#[tactic(auto, unfolding(crate::specs::Statements::conditional))]
fn conditional(tokens: &mut Tokens<'_>, depth: usize, at: usize) -> Result<Kind, Fault>
    ensures { Gives (spec.conditional (spec.block depth) at tokens.old) result tokens.new }
{
    let cond = cond(tokens)?;
    let yes = block(tokens, depth)?;
    let no = else_part(tokens, depth, at)?;
    Ok(Kind::If { cond, yes, no })
}

/// A `get` at this place, behind its first word.
#[cycle(block)]
#[tactic(auto, unfolding(crate::specs::Statements::lookup))]
fn lookup(tokens: &mut Tokens<'_>, depth: usize, at: usize) -> Result<Kind, Fault>
    ensures { Gives (spec.lookup (spec.block depth) at tokens.old) result tokens.new }
{
    let table = tokens.name()?;
    let key = atom(tokens)?;
    let name = tokens.name()?;
    let found = block(tokens, depth)?;
    let missing = else_part(tokens, depth, at)?;
    Ok(Kind::Lookup {
        table,
        key,
        name,
        found,
        missing,
    })
}
