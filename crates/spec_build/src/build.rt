//! Building specifications.

ghost use Rattle.std.specs.Prelude.{◌≡◌, IfOk, Some};
ghost use Rattle.spec_model.specs.declared.tree.Spec.{Spec};
ghost use Rattle.spec_model.specs.Grammar.{Fits, pieces_of_spec};
ghost use Rattle.spec_model.specs.Spelling.{IsWithinBraces, is_left_out};
ghost use Rattle.spec_build.specs.Whole as spec;

use crate::fault::Fault;
use crate::header::specification;
use crate::tokens::Tokens;
use spec_model::Memory;
use spec_model::token::Placed;
use spec_model::tree::Spec;
use std::alloc::{AllocError, Global};

/// The tree whose tokens these are. A tree has its tokens in the order of the grammar, an `else` that is left out being an
/// empty block at the place of its statement; no more than 32 braces may be open at one time. Where tokens are those of no
/// tree, the answer may also be `None`. Definition: own.
pub fn build(alloc: Global, tokens: &[Placed]) -> Result<Option<Spec>, Memory>
    ensures { (tree : Spec) → Fits (pieces_of_spec is_left_out tree) tokens.now → IsWithinBraces 0 tokens.now → IfOk result (λ built. built ≡ Some tree) }
{
    read_whole(alloc, tokens)
}

/// The tree that is read from all of the tokens, where one is.
fn read_whole(alloc: Global, tokens: &[Placed]) -> Result<Option<Spec>, Memory>
    ensures { IfOk result (λ read. read ≡ spec.built tokens.now) }
{
    let mut tokens = Tokens::new(alloc, tokens);
    match specification(&mut tokens) {
        Ok(tree) => Ok(if tokens.left() == 0 { Some(tree) } else { None }),
        Err(Fault::Shape) => Ok(None),
        Err(Fault::Memory) => Err(AllocError),
    }
}
