//! Laws of refused places.

ghost use Rattle.std.specs.Prelude.{◌≡◌, ℕ, List};
ghost use Rattle.spec_model.specs.declared.tree.Spec.{Spec};
ghost use Rattle.spec_model.specs.Spelling.{IsRefusedAt, IsWithinBraces, Spells};

/// A text is refused at one place at most, and at none where it spells a tree within the limit of braces.
pub fn one_place()
    ensures one { (text : List ℕ) (place other : ℕ) → IsRefusedAt text place → IsRefusedAt text other → place ≡ other }
    ensures none { (text : List ℕ) (spec : Spec) (h : Spells text spec) → IsWithinBraces 0 h.tokens → (place : ℕ) → ¬ IsRefusedAt text place }
{}
