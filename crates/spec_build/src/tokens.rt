//! A cursor over tokens.

ghost use Rattle.std.specs.Prelude.{◌≡◌, ◌∷◌, [], MatchResult, length};
ghost use Rattle.spec_build.specs.Reader as spec;
ghost use Rattle.spec_build.specs.Reader.{Gives};

use crate::fault::Fault;
use spec_model::list::Bytes;
use spec_model::token::{Keyword, Placed, Punctuation, Token};
use std::alloc::Global;
use std::marker::Model;

/// The tokens that are not read yet.
#[derive(Drop)]
pub(crate) struct Tokens<'a> {
    alloc: Global,
    rest: &'a [Placed],
}

impl<'a> Model for Tokens<'a> {
    ghost use Rattle.std.specs.Prelude.{List};
    ghost use Rattle.std.specs.Coded.{codes};
    ghost use Rattle.spec_model.specs.declared.token.Placed.{Placed};
    ghost use Rattle.spec_model.specs.contracts.token.Placed as placed;

    ghost Value = { List Placed };

    ghost coded = { Prim.hlevel (codes, placed.the_row.coded) };

    ghost view = { λ tokens. tokens.rest.now };
}

/// Whether the token is this word.
fn is_word(token: &Token, keyword: Keyword) -> bool
    ensures { result ≡ spec.is_word keyword token.now }
{
    match token {
        Token::Keyword(word) => *word == keyword,
        _ => false,
    }
}

/// Whether the token is this sign.
fn is_sign(token: &Token, punctuation: Punctuation) -> bool
    ensures { result ≡ spec.is_sign punctuation token.now }
{
    match token {
        Token::Sign(sign) => *sign == punctuation,
        _ => false,
    }
}

impl<'a> Tokens<'a> {
    /// All of these tokens.
    pub(crate) fn new(alloc: Global, tokens: &'a [Placed]) -> Tokens<'a>
        ensures { result ≡ tokens.now }
    {
        Tokens {
            alloc,
            rest: tokens,
        }
    }

    /// Where what is built takes its memory.
    pub(crate) fn alloc(&self) -> Global {
        self.alloc
    }

    /// How many tokens are left.
    pub(crate) fn left(&self) -> usize
        ensures { result ≡ length self.now }
    {
        self.rest.len()
    }

    /// The next token, which is there no more.
    pub(crate) fn next(&mut self) -> Result<&'a Placed, Fault>
        ensures { MatchResult result (λ placed. self.old ≡ placed.now ∷ self.new) (λ fault. (fault ≡ Fault.Shape) × (self.old ≡ [])) }
    {
        match self.rest.split_first() {
            Some((first, rest)) => {
                self.rest = rest;
                Ok(first)
            }
            None => Err(Fault::Shape),
        }
    }

    /// Takes this word, and gives its place.
    pub(crate) fn word(&mut self, keyword: Keyword) -> Result<usize, Fault>
        ensures { Gives (spec.word keyword self.old) result self.new }
    {
        let placed = self.next()?;
        if is_word(&placed.token, keyword) {
            Ok(placed.at)
        } else {
            Err(Fault::Shape)
        }
    }

    /// Takes this sign, and gives its place.
    pub(crate) fn sign(&mut self, punctuation: Punctuation) -> Result<usize, Fault>
        ensures { Gives (spec.sign punctuation self.old) result self.new }
    {
        let placed = self.next()?;
        if is_sign(&placed.token, punctuation) {
            Ok(placed.at)
        } else {
            Err(Fault::Shape)
        }
    }

    /// Takes any word, and gives its place too.
    pub(crate) fn any_word(&mut self) -> Result<(usize, Keyword), Fault>
        ensures { Gives (spec.any_word self.old) result self.new }
    {
        let placed = self.next()?;
        match &placed.token {
            Token::Keyword(keyword) => Ok((placed.at, *keyword)),
            _ => Err(Fault::Shape),
        }
    }

    /// Takes this word where it comes next, and says whether it did.
    pub(crate) fn eat_word(&mut self, keyword: Keyword) -> bool
        ensures { spec.eat_word keyword self.old ≡ Some (result, self.new) }
    {
        let Some((first, rest)) = self.rest.split_first() else {
            return false;
        };
        if !is_word(&first.token, keyword) {
            return false;
        }
        self.rest = rest;
        true
    }

    /// Takes this sign where it comes next, and says whether it did.
    pub(crate) fn eat_sign(&mut self, punctuation: Punctuation) -> bool
        ensures { spec.eat_sign punctuation self.old ≡ Some (result, self.new) }
    {
        let Some((first, rest)) = self.rest.split_first() else {
            return false;
        };
        if !is_sign(&first.token, punctuation) {
            return false;
        }
        self.rest = rest;
        true
    }

    /// Whether a text or a name comes next.
    pub(crate) fn sees_part(&self) -> bool
        ensures { result ≡ spec.sees_part self.now }
    {
        match self.rest {
            [first, ..] => matches!(first.token, Token::Text(_) | Token::Name(_)),
            [] => false,
        }
    }

    /// Whether this word comes next.
    pub(crate) fn sees_word(&self, keyword: Keyword) -> bool
        ensures { result ≡ spec.sees (spec.is_word keyword) self.now }
    {
        match self.rest {
            [first, ..] => is_word(&first.token, keyword),
            [] => false,
        }
    }

    /// Whether a declaration comes next.
    pub(crate) fn sees_declaration(&self) -> bool
        ensures { result ≡ spec.sees_declaration self.now }
    {
        match self.rest {
            [first, ..] => begins_declaration(&first.token),
            [] => false,
        }
    }

    /// Takes a name.
    pub(crate) fn name(&mut self) -> Result<Bytes, Fault>
        ensures { Gives (spec.name self.old) result self.new }
    {
        match &self.next()?.token {
            Token::Name(name) => Ok(name.copy(self.alloc)?),
            _ => Err(Fault::Shape),
        }
    }

    /// Takes a text.
    pub(crate) fn text(&mut self) -> Result<Bytes, Fault>
        ensures { Gives (spec.text self.old) result self.new }
    {
        match &self.next()?.token {
            Token::Text(text) => Ok(text.copy(self.alloc)?),
            _ => Err(Fault::Shape),
        }
    }

    /// Takes a number.
    pub(crate) fn number(&mut self) -> Result<u64, Fault>
        ensures { Gives (spec.number self.old) result self.new }
    {
        match &self.next()?.token {
            Token::Number(number) => Ok(*number),
            _ => Err(Fault::Shape),
        }
    }
}

/// Whether a declaration begins with this token.
fn begins_declaration(token: &Token) -> bool
    ensures { result ≡ spec.begins_declaration token.now }
{
    match token {
        Token::Keyword(keyword) => matches!(
            *keyword,
            Keyword::Text | Keyword::Num | Keyword::Conn | Keyword::Table
        ),
        _ => false,
    }
}
