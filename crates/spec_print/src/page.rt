//! A text that is written token by token.

ghost use Rattle.std.specs.Prelude.{◌≡◌, ◌≤◌, ◌++◌, [], ◌∷◌, OnOk, IfOk, List, decimal, length, ℕ};
ghost use Rattle.spec_model.specs.Canonical.{goes_on, new_line};
ghost use Rattle.spec_model.specs.Message.{line_feed};
ghost use Rattle.spec_model.specs.declared.token.Token.TheVariants as tokens;
ghost use Rattle.spec_print.specs.Page as spec;

use itoa::Buffer;
use spec_model::Memory;
use spec_model::quote::put_quotation;
use spec_model::token::{Keyword, Punctuation};
use std::alloc::Global;
use std::marker::Model;

/// What stands before a token.
#[derive(Clone, Copy)]
pub(crate) enum Before {
    Nothing,
    Colon,
    /// An opening brace.
    Open,
    Other,
}

/// How a token stands behind another.
#[derive(Clone, Copy)]
pub(crate) enum Stands {
    /// With nothing between them.
    Beside,
    /// On a line of its own, which is indented as the line that opened the brace.
    Outside,
    /// First on a line.
    First,
    /// With a space between them.
    Apart,
}

/// A text, and what the next token's place in it hangs on.
#[derive(Drop)]
pub(crate) struct Page {
    text: Vec<u8>,
    /// How many braces are open.
    depth: usize,
    before: Before,
}

impl Model for Page {
    ghost use Rattle.std.specs.Prelude.{length, ◌≤◌};
    ghost use Rattle.spec_print.specs.Page.{Printed, printed_code};

    ghost Value = { Printed };

    ghost coded = { printed_code };

    ghost view = { λ page. record { text = page.text.items; depth = page.depth; before = page.before } };

    ghost invariant = { λ page. page.depth ≤ length page.text.items };
}

impl Page {
    /// The empty page.
    pub(crate) fn new(alloc: Global) -> Page
        ensures { result ≡ spec.blank }
    {
        Page {
            text: Vec::new(alloc),
            depth: 0,
            before: Before::Nothing,
        }
    }

    /// The text, ended by LF.
    pub(crate) fn finish(self) -> Result<Vec<u8>, Memory>
        ensures { IfOk result (λ text. text.items ≡ self.text ++ line_feed ∷ []) }
    {
        let Page { mut text, .. } = self;
        text.push(b'\n')?;
        Ok(text)
    }

    /// With these bytes behind it, which stand so.
    fn with(self, stands: Stands, bytes: &[u8]) -> Result<Page, Memory>
        ensures { IfOk result (λ page. page ≡ spec.with_bytes self stands bytes.now) }
    {
        let Page {
            mut text,
            depth,
            before,
        } = self;
        put_gap(&mut text, depth, before, stands)?;
        text.extend_from_slice(bytes)?;
        Ok(Page {
            text,
            depth,
            before: Before::Other,
        })
    }

    /// With this word behind it.
    pub(crate) fn word(self, keyword: Keyword) -> Result<Page, Memory>
        ensures { IfOk result (λ page. page ≡ spec.put self (tokens.Keyword keyword)) }
    {
        self.with(word_stands(keyword), keyword.spelling())
    }

    /// With this name behind it.
    pub(crate) fn name(self, name: &[u8]) -> Result<Page, Memory>
        ensures { IfOk result (λ page. page ≡ spec.put self (tokens.Name name.now)) }
    {
        self.with(Stands::Apart, name)
    }

    /// With this number behind it.
    pub(crate) fn number(self, number: u64) -> Result<Page, Memory>
        ensures { IfOk result (λ page. page ≡ spec.put self (tokens.Number number)) }
    {
        self.with(Stands::Apart, Buffer::new().format(number).as_bytes())
    }

    /// With this text behind it, between quotes.
    pub(crate) fn quotation(self, quoted: &[u8]) -> Result<Page, Memory>
        ensures { IfOk result (λ page. page ≡ spec.put self (tokens.Text quoted.now)) }
    {
        let mut page = self.with(Stands::Apart, b"")?;
        put_quotation(&mut page.text, quoted)?;
        Ok(page)
    }

    /// With this sign behind it.
    pub(crate) fn sign(self, punctuation: Punctuation) -> Result<Page, Memory>
        ensures { IfOk result (λ page. page ≡ spec.put self (tokens.Sign punctuation)) }
    {
        let page = self.with(sign_stands(punctuation), punctuation.spelling())?;
        Ok(match punctuation {
            Punctuation::Open => Page {
                depth: page.depth + 1,
                before: Before::Open,
                ..page
            },
            Punctuation::Close => Page {
                depth: page.depth.saturating_sub(1),
                ..page
            },
            Punctuation::Colon => Page {
                before: Before::Colon,
                ..page
            },
            _ => page,
        })
    }
}

/// How a word stands behind another token.
fn word_stands(keyword: Keyword) -> Stands
    ensures { result ≡ spec.word_stands keyword }
{
    match keyword {
        Keyword::Line
        | Keyword::Len16
        | Keyword::From
        | Keyword::Hex
        | Keyword::Alnum
        | Keyword::Any
        | Keyword::Else
        | Keyword::Or => Stands::Apart,
        _ => Stands::First,
    }
}

/// How a sign stands behind another token.
fn sign_stands(punctuation: Punctuation) -> Stands
    ensures { result ≡ spec.sign_stands punctuation }
{
    match punctuation {
        Punctuation::Colon => Stands::Beside,
        Punctuation::Close => Stands::Outside,
        _ => Stands::Apart,
    }
}

/// Begins a line at this depth of open braces.
fn put_new_line(text: &mut Vec<u8>, depth: usize) -> Result<(), Memory>
    ensures { OnOk result (text.new.items ≡ text.old.items ++ new_line depth) }
{
    text.push(b'\n')?;
    for _brace in 0..depth {
        text.extend_from_slice(b"  ")?;
    }
    Ok(())
}

/// Parts the next token from what stands before it.
fn put_gap(text: &mut Vec<u8>, depth: usize, before: Before, stands: Stands) -> Result<(), Memory>
    ensures { OnOk result (text.new.items ≡ text.old.items ++ spec.gap_behind depth before stands) }
{
    match before {
        Before::Nothing | Before::Colon => Ok(()),
        Before::Open => put_gap_behind_open(text, depth, stands),
        Before::Other => put_gap_behind_other(text, depth, stands),
    }
}

fn put_gap_behind_open(text: &mut Vec<u8>, depth: usize, stands: Stands) -> Result<(), Memory>
    ensures { OnOk result (text.new.items ≡ text.old.items ++ spec.gap_behind_open depth stands) }
{
    match stands {
        Stands::Beside => Ok(()),
        Stands::Outside => put_new_line(text, depth.saturating_sub(1)),
        Stands::First | Stands::Apart => put_new_line(text, depth),
    }
}

fn put_gap_behind_other(text: &mut Vec<u8>, depth: usize, stands: Stands) -> Result<(), Memory>
    ensures { OnOk result (text.new.items ≡ text.old.items ++ spec.gap_behind_other depth stands) }
{
    match stands {
        Stands::Beside => Ok(()),
        Stands::Outside => put_new_line(text, depth.saturating_sub(1)),
        Stands::First => put_new_line(text, depth),
        Stands::Apart => {
            text.push(b' ')?;
            Ok(())
        }
    }
}
