//! The parts of statements that hold no statements.

ghost use Rattle.std.specs.Prelude.{◌≡◌};
ghost use Rattle.spec_build.specs.Parts as spec;
ghost use Rattle.spec_build.specs.Reader.{Gives};

use crate::fault::Fault;
use crate::tokens::Tokens;
use spec_model::list::List;
use spec_model::token::{Keyword, Punctuation, Token};
use spec_model::tree::{Alphabet, Chan, Cond, Expr, HoleKind, Item, Kind, Op, Sign};

/// A text, a number or a name.
pub(crate) fn atom(tokens: &mut Tokens<'_>) -> Result<Expr, Fault>
    ensures { Gives (spec.atom tokens.old) result tokens.new }
{
    let placed = tokens.next()?;
    match &placed.token {
        Token::Text(text) => Ok(Expr::Text(text.copy(tokens.alloc())?)),
        Token::Number(number) => Ok(Expr::Num(*number)),
        Token::Name(name) => Ok(Expr::Name(name.copy(tokens.alloc())?)),
        _ => Err(Fault::Shape),
    }
}

/// A connection: a number or a name.
pub(crate) fn conn(tokens: &mut Tokens<'_>) -> Result<Expr, Fault>
    ensures { Gives (spec.conn tokens.old) result tokens.new }
{
    let placed = tokens.next()?;
    match &placed.token {
        Token::Number(number) => Ok(Expr::Num(*number)),
        Token::Name(name) => Ok(Expr::Name(name.copy(tokens.alloc())?)),
        _ => Err(Fault::Shape),
    }
}

/// A part of what is sent: a text or a name.
fn part(tokens: &mut Tokens<'_>) -> Result<Expr, Fault>
    ensures { Gives (spec.part tokens.old) result tokens.new }
{
    let placed = tokens.next()?;
    match &placed.token {
        Token::Text(text) => Ok(Expr::Text(text.copy(tokens.alloc())?)),
        Token::Name(name) => Ok(Expr::Name(name.copy(tokens.alloc())?)),
        _ => Err(Fault::Shape),
    }
}

/// All parts that come next, which is one at least.
pub(crate) fn parts(tokens: &mut Tokens<'_>) -> Result<List<Expr>, Fault>
    ensures { Gives (spec.parts tokens.old) result tokens.new }
{
    let mut parts = List::new(tokens.alloc());
    parts.push(part(tokens)?)?;
    further_parts(tokens, parts)
}

/// These parts and all that come next.
fn further_parts(tokens: &mut Tokens<'_>, mut parts: List<Expr>) -> Result<List<Expr>, Fault>
    ensures { Gives (spec.further_parts parts tokens.old) result tokens.new }
{
    for _turn in 0..tokens.left() {
        if !tokens.sees_part() {
            return Ok(parts);
        }
        parts.push(part(tokens)?)?;
    }
    Ok(parts)
}

/// What a hole takes.
fn hole_kind(tokens: &mut Tokens<'_>) -> Result<HoleKind, Fault>
    ensures { Gives (spec.hole_kind tokens.old) result tokens.new }
{
    match &tokens.next()?.token {
        Token::Keyword(Keyword::Word) => Ok(HoleKind::Word),
        Token::Keyword(Keyword::Num) => Ok(HoleKind::Num),
        Token::Keyword(Keyword::Rest) => Ok(HoleKind::Rest),
        _ => Err(Fault::Shape),
    }
}

/// A part of a pattern.
fn item(tokens: &mut Tokens<'_>) -> Result<Item, Fault>
    ensures { Gives (spec.item tokens.old) result tokens.new }
{
    match part(tokens)? {
        Expr::Text(text) => Ok(Item::Lit(text)),
        Expr::Name(name) => {
            tokens.sign(Punctuation::Colon)?;
            Ok(Item::Hole(name, hole_kind(tokens)?))
        }
        Expr::Num(_) => Err(Fault::Shape),
    }
}

/// All parts of a pattern that come next, which is one at least.
pub(crate) fn items(tokens: &mut Tokens<'_>) -> Result<List<Item>, Fault>
    ensures { Gives (spec.items tokens.old) result tokens.new }
{
    let mut items = List::new(tokens.alloc());
    items.push(item(tokens)?)?;
    further_items(tokens, items)
}

/// These parts of a pattern and all that come next.
fn further_items(tokens: &mut Tokens<'_>, mut items: List<Item>) -> Result<List<Item>, Fault>
    ensures { Gives (spec.further_items items tokens.old) result tokens.new }
{
    for _turn in 0..tokens.left() {
        if !tokens.sees_part() {
            return Ok(items);
        }
        items.push(item(tokens)?)?;
    }
    Ok(items)
}

fn op(tokens: &mut Tokens<'_>) -> Result<Op, Fault>
    ensures { Gives (spec.op tokens.old) result tokens.new }
{
    match &tokens.next()?.token {
        Token::Sign(Punctuation::Same) => Ok(Op::Same),
        Token::Sign(Punctuation::Other) => Ok(Op::Other),
        Token::Sign(Punctuation::Less) => Ok(Op::Less),
        _ => Err(Fault::Shape),
    }
}

/// A condition.
#[tactic(auto, unfolding(crate::specs::Parts::cond))]
pub(crate) fn cond(tokens: &mut Tokens<'_>) -> Result<Cond, Fault>
    ensures { Gives (spec.cond tokens.old) result tokens.new }
{
    let left = atom(tokens)?;
    let op = op(tokens)?;
    let right = atom(tokens)?;
    Ok(Cond { left, op, right })
}

fn alphabet(tokens: &mut Tokens<'_>) -> Result<Alphabet, Fault>
    ensures { Gives (spec.alphabet tokens.old) result tokens.new }
{
    match &tokens.next()?.token {
        Token::Keyword(Keyword::Hex) => Ok(Alphabet::Hex),
        Token::Keyword(Keyword::Alnum) => Ok(Alphabet::Alnum),
        Token::Keyword(Keyword::Any) => Ok(Alphabet::Any),
        _ => Err(Fault::Shape),
    }
}

/// The rest of a sum or a difference, where there is one.
#[tactic(auto, unfolding(crate::specs::Parts::tail))]
fn tail(tokens: &mut Tokens<'_>) -> Result<Option<(Sign, Expr)>, Fault>
    ensures { Gives (spec.tail tokens.old) result tokens.new }
{
    if tokens.eat_sign(Punctuation::Plus) {
        return Ok(Some((Sign::Plus, atom(tokens)?)));
    }
    if tokens.eat_sign(Punctuation::Minus) {
        return Ok(Some((Sign::Minus, atom(tokens)?)));
    }
    Ok(None)
}

/// Which connection a message is taken from.
#[tactic(auto, unfolding(crate::specs::Parts::chan))]
pub(crate) fn chan(tokens: &mut Tokens<'_>) -> Result<Chan, Fault>
    ensures { Gives (spec.chan tokens.old) result tokens.new }
{
    if tokens.eat_word(Keyword::From) {
        Ok(Chan::From(conn(tokens)?))
    } else {
        Ok(Chan::Bind(tokens.name()?))
    }
}

/// A `send` behind its first word.
#[tactic(auto, unfolding(crate::specs::Parts::send))]
pub(crate) fn send(tokens: &mut Tokens<'_>) -> Result<Kind, Fault>
    ensures { Gives (spec.send tokens.old) result tokens.new }
{
    let conn = conn(tokens)?;
    let parts = parts(tokens)?;
    Ok(Kind::Send { conn, parts })
}

/// A `pick` behind its first word.
#[tactic(auto, unfolding(crate::specs::Parts::pick))]
pub(crate) fn pick(tokens: &mut Tokens<'_>) -> Result<Kind, Fault>
    ensures { Gives (spec.pick tokens.old) result tokens.new }
{
    let name = tokens.name()?;
    let len = tokens.number()?;
    let alphabet = alphabet(tokens)?;
    Ok(Kind::Pick {
        name,
        len,
        alphabet,
    })
}

/// A `set` behind its first word.
#[tactic(auto, unfolding(crate::specs::Parts::assign))]
pub(crate) fn assign(tokens: &mut Tokens<'_>) -> Result<Kind, Fault>
    ensures { Gives (spec.assign tokens.old) result tokens.new }
{
    let name = tokens.name()?;
    let left = atom(tokens)?;
    let tail = tail(tokens)?;
    Ok(Kind::Assign { name, left, tail })
}

/// A `where` behind its first word.
#[tactic(auto, unfolding(crate::specs::Parts::assume))]
pub(crate) fn assume(tokens: &mut Tokens<'_>) -> Result<Kind, Fault>
    ensures { Gives (spec.assume tokens.old) result tokens.new }
{
    let cond = cond(tokens)?;
    Ok(Kind::Assume { cond })
}

/// A `put` behind its first word.
#[tactic(auto, unfolding(crate::specs::Parts::put))]
pub(crate) fn put(tokens: &mut Tokens<'_>) -> Result<Kind, Fault>
    ensures { Gives (spec.put tokens.old) result tokens.new }
{
    let table = tokens.name()?;
    let key = atom(tokens)?;
    let value = atom(tokens)?;
    Ok(Kind::Put { table, key, value })
}

/// A `del` behind its first word.
#[tactic(auto, unfolding(crate::specs::Parts::delete))]
pub(crate) fn delete(tokens: &mut Tokens<'_>) -> Result<Kind, Fault>
    ensures { Gives (spec.delete tokens.old) result tokens.new }
{
    let table = tokens.name()?;
    let key = atom(tokens)?;
    Ok(Kind::Delete { table, key })
}
