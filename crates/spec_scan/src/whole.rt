//! The whole tokens of a text so far, with one more.

ghost use Rattle.std.specs.Prelude.{◌≡◌, ◌+◌, ◌<◌, ◌≤◌, ◌^◌, IfOk, length, option_map, reverse};
ghost use Rattle.spec_model.specs.Canonical.{depth_behind};
ghost use Rattle.spec_scan.specs.Scan.{done, take_token};
ghost use Rattle.spec_scan.specs.Table.{class_of, takes};
ghost use Rattle.spec_scan.specs.View.{goals_of, placed_of, whole_state};

use crate::goal::Class;
use crate::stack;
use crate::state::Whole;
use spec_model::token::{Placed, Punctuation, Token};
use std::alloc::AllocError;

impl Whole {
    /// Whether a token of this class may come next.
    pub fn takes(&self, class: Class) -> bool
        ensures { result ≡ takes (goals_of self.now) class }
    {
        stack::takes(&self.goals, class)
    }

    /// With one token more, where it may come next.
    #[tactic(auto, using(crate::proofs::Depths::open_behind_push, crate::proofs::Depths::depth_le))]
    pub fn take(self, at: usize, token: Token) -> Result<Option<Whole>, AllocError>
        ensures { IfOk result (λ next. option_map whole_state next ≡ take_token (goals_of self) (placed_of self) at token) }
    {
        let Whole {
            mut goals,
            mut placed,
            depth,
        } = self;
        if !stack::shift(&mut goals, class_of(&token))? {
            return Ok(None);
        }
        let depth = depth_behind(depth, &token);
        placed.push(Placed { at, token })?;
        Ok(Some(Whole {
            goals,
            placed,
            depth,
        }))
    }

    /// The tokens, where nothing is left to be read.
    pub fn done(self) -> Option<Vec<Placed>>
        ensures { option_map (λ placed. placed.items) result ≡ done (goals_of self) (placed_of self) }
    {
        if self.goals.is_empty() {
            Some(self.placed)
        } else {
            None
        }
    }
}

/// By what the grammar tells the token apart.
fn class_of(token: &Token) -> Class
    ensures { result ≡ class_of token.now }
{
    match token {
        Token::Keyword(word) => Class::Keyword(*word),
        Token::Name(_) => Class::Name,
        Token::Number(_) => Class::Number,
        Token::Text(_) => Class::Text,
        Token::Sign(sign) => Class::Sign(*sign),
    }
}

/// How many braces are open behind a token, where so many are open before it.
fn depth_behind(depth: usize, token: &Token) -> usize
    requires { depth < 2 ^ 63 }
    ensures { result ≡ depth_behind depth token.now }
{
    match token {
        Token::Sign(Punctuation::Open) => depth + 1,
        Token::Sign(Punctuation::Close) => depth.saturating_sub(1),
        _ => depth,
    }
}
