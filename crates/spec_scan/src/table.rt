//! The grammar as a table: which goals stand in a goal's place behind a token.

ghost use Rattle.std.specs.Prelude.{◌≡◌, List, option_map};
ghost use Rattle.spec_scan.specs.Table.{may_end, name_rule, number_rule, rule, sign_rule, text_rule, word_rule};
ghost use Rattle.spec_scan.specs.declared.goal.Goal.{Goal};
ghost use Rattle.spec_scan.specs.declared.goal.Goal.TheVariants.{Stmts};

use crate::goal::{Class, Goal};
use spec_model::token::{Keyword, Punctuation};

/// The goals in whose place a token of this class leaves others, the next first; `None` where the goal does not begin so.
pub fn rule(goal: Goal, class: Class) -> Option<&'static [Goal]>
    ensures { option_map (λ goals. goals.now) result ≡ rule goal class }
{
    match class {
        Class::Keyword(word) => word_rule(goal, word),
        Class::Name => name_rule(goal),
        Class::Number => number_rule(goal),
        Class::Text => text_rule(goal),
        Class::Sign(sign) => sign_rule(goal, sign),
    }
}

/// Whether nothing is a spelling of the goal.
pub fn may_end(goal: Goal) -> bool
    ensures { result ≡ may_end goal }
{
    match goal {
        Goal::Decls
        | Goal::Start
        | Goal::Stmts
        | Goal::Cases
        | Goal::Items
        | Goal::SendParts
        | Goal::Tail
        | Goal::Arms
        | Goal::Else => true,
        _ => false,
    }
}

/// What follows a keyword.
fn word_rule(goal: Goal, word: Keyword) -> Option<&'static [Goal]>
    ensures { option_map (λ goals. goals.now) result ≡ word_rule goal word }
{
    match (goal, word) {
        (Goal::Spec, Keyword::Frame) => Some(&[
            Goal::Framing,
            Goal::HeaderNumber,
            Goal::Conns,
            Goal::Decls,
            Goal::Start,
            Goal::Loop,
        ]),
        (Goal::Framing, Keyword::Line | Keyword::Len16)
        | (Goal::HoleKind, Keyword::Word | Keyword::Num | Keyword::Rest)
        | (Goal::Alphabet, Keyword::Hex | Keyword::Alnum | Keyword::Any) => Some(&[]),
        (Goal::Conns, Keyword::Conns) => Some(&[Goal::HeaderNumber]),
        (Goal::Decls, Keyword::Text) => Some(&[Goal::Name, Goal::Becomes, Goal::Text, Goal::Decls]),
        (Goal::Decls, Keyword::Num | Keyword::Conn) => Some(&[
            Goal::Name,
            Goal::Becomes,
            Goal::Number,
            Goal::Decls,
        ]),
        (Goal::Decls, Keyword::Table) => Some(&[Goal::Name, Goal::Decls]),
        (Goal::Start, Keyword::Start) | (Goal::Loop, Keyword::Loop) => {
            Some(&[Goal::Open, Goal::Stmts, Goal::Close])
        }
        (Goal::Stmts, word) => stmt_rule(word),
        (Goal::Chan, Keyword::From) => Some(&[Goal::Conn]),
        (Goal::Cases, Keyword::Case) => Some(&[Goal::Item, Goal::Items, Goal::Block, Goal::Cases]),
        (Goal::Other, Keyword::Other) => Some(&[Goal::Name, Goal::Block]),
        (Goal::Arm, Keyword::Or) | (Goal::Else, Keyword::Else) => Some(&[Goal::Block]),
        (Goal::Arms, Keyword::Or) => Some(&[Goal::Block, Goal::Arms]),
        _ => None,
    }
}

/// What follows the first word of a statement.
fn stmt_rule(word: Keyword) -> Option<&'static [Goal]>
    ensures { option_map (λ goals. goals.now) result ≡ word_rule Stmts word }
{
    match word {
        Keyword::Recv => Some(&[
            Goal::Chan,
            Goal::Open,
            Goal::Cases,
            Goal::Other,
            Goal::Close,
            Goal::Stmts,
        ]),
        Keyword::Send => Some(&[Goal::Conn, Goal::SendPart, Goal::SendParts, Goal::Stmts]),
        Keyword::Pick => Some(&[Goal::Name, Goal::Number, Goal::Alphabet, Goal::Stmts]),
        Keyword::Set => Some(&[Goal::Name, Goal::Atom, Goal::Tail, Goal::Stmts]),
        Keyword::If => Some(&[
            Goal::Atom,
            Goal::Comparison,
            Goal::Atom,
            Goal::Block,
            Goal::Else,
            Goal::Stmts,
        ]),
        Keyword::Either => Some(&[Goal::Block, Goal::Arm, Goal::Arms, Goal::Stmts]),
        Keyword::Where => Some(&[Goal::Atom, Goal::Comparison, Goal::Atom, Goal::Stmts]),
        Keyword::Put => Some(&[Goal::Name, Goal::Atom, Goal::Atom, Goal::Stmts]),
        Keyword::Get => Some(&[
            Goal::Name,
            Goal::Atom,
            Goal::Name,
            Goal::Block,
            Goal::Else,
            Goal::Stmts,
        ]),
        Keyword::Del => Some(&[Goal::Name, Goal::Atom, Goal::Stmts]),
        _ => None,
    }
}

/// What follows a name.
fn name_rule(goal: Goal) -> Option<&'static [Goal]>
    ensures { option_map (λ goals. goals.now) result ≡ name_rule goal }
{
    match goal {
        Goal::Item => Some(&[Goal::Colon, Goal::HoleKind]),
        Goal::Items => Some(&[Goal::Colon, Goal::HoleKind, Goal::Items]),
        Goal::SendParts => Some(&[Goal::SendParts]),
        Goal::Chan | Goal::Conn | Goal::SendPart | Goal::Atom | Goal::Name => Some(&[]),
        _ => None,
    }
}

/// What follows a number.
fn number_rule(goal: Goal) -> Option<&'static [Goal]>
    ensures { option_map (λ goals. goals.now) result ≡ number_rule goal }
{
    match goal {
        Goal::HeaderNumber | Goal::Conn | Goal::Atom | Goal::Number => Some(&[]),
        _ => None,
    }
}

/// What follows a string.
fn text_rule(goal: Goal) -> Option<&'static [Goal]>
    ensures { option_map (λ goals. goals.now) result ≡ text_rule goal }
{
    match goal {
        Goal::Items => Some(&[Goal::Items]),
        Goal::SendParts => Some(&[Goal::SendParts]),
        Goal::Item | Goal::SendPart | Goal::Atom | Goal::Text => Some(&[]),
        _ => None,
    }
}

/// What follows a sign.
fn sign_rule(goal: Goal, sign: Punctuation) -> Option<&'static [Goal]>
    ensures { option_map (λ goals. goals.now) result ≡ sign_rule goal sign }
{
    match goal {
        Goal::Block => match sign {
            Punctuation::Open => Some(&[Goal::Stmts, Goal::Close]),
            _ => None,
        },
        Goal::Open => match sign {
            Punctuation::Open => Some(&[]),
            _ => None,
        },
        Goal::Close => match sign {
            Punctuation::Close => Some(&[]),
            _ => None,
        },
        Goal::Colon => match sign {
            Punctuation::Colon => Some(&[]),
            _ => None,
        },
        Goal::Becomes => match sign {
            Punctuation::Becomes => Some(&[]),
            _ => None,
        },
        Goal::Comparison => match sign {
            Punctuation::Same | Punctuation::Other | Punctuation::Less => Some(&[]),
            _ => None,
        },
        Goal::Tail => match sign {
            Punctuation::Plus | Punctuation::Minus => Some(&[Goal::Atom]),
            _ => None,
        },
        _ => None,
    }
}
