//! The numbers from which a script is made.

ghost use Rattle.std.specs.Prelude.{◌≡◌, ◌≢◌, ◌∷◌, [], IfNone, IfSome};
ghost use Rattle.dualtest_main.specs.Words.{IsWithinBounds, recipe_words};
ghost use Rattle.dualtest_main.specs.declared.recipe.Recipe.{Recipe};

use crate::number::number;
use net_world::CONNS;
use script_gen::script::MAX_STEPS;

/// The numbers from which a script is made of a specification.
#[derive(Clone, Copy, Debug)]
pub struct Recipe {
    pub seed: u64,
    /// How many connections are asked for, 1 to `CONNS`. A script has no more than its specification.
    pub conns: u16,
    /// `MAX_STEPS` at most.
    pub steps: u32,
}

/// The numbers that these words spell, if each is within its bounds.
pub fn recipe_of(seed: &str, conns: &str, steps: &str) -> Option<Recipe>
    ensures words { IfSome result (λ recipe. recipe_words recipe ≡ seed.now ∷ conns.now ∷ steps.now ∷ []) }
    ensures bounds { IfSome result IsWithinBounds }
    ensures none { IfNone result ((recipe : Recipe) → IsWithinBounds recipe → recipe_words recipe ≢ seed.now ∷ conns.now ∷ steps.now ∷ []) }
{
    Some(Recipe {
        seed: number(seed, 0, u64::MAX)?,
        conns: number(conns, 1, u64::from(CONNS))? as u16,
        steps: number(steps, 0, u64::from(MAX_STEPS))? as u32,
    })
}
