//! Laws of the canonical spelling.

ghost use Rattle.std.specs.Prelude.{◌≡◌, List, ℕ};
ghost use Rattle.std.specs.List.{AllByRecursion};
ghost use Rattle.spec_model.specs.Canonical.{canonical, layout_of, tokens_of};
ghost use Rattle.spec_model.specs.Grammar.{is_empty, pieces_of_spec};
ghost use Rattle.spec_model.specs.Spelling.{IsWithinBraces, Spells};
ghost use Rattle.spec_model.specs.declared.tree.Spec.{Spec};
ghost use Rattle.spec_model.specs.declared.token.Token.{Token};
ghost use Rattle.spec_print.specs.Unplaced.{unplaced};
ghost use Rattle.spec_print.specs.Writable.{IsWritable, SpellsTokens};

/// What is laid out as the canonical spelling is spells the tokens that were laid out, in their order, and no others: where each
/// is a token that some bytes spell.
pub fn layout_spells()
    ensures { (tokens : List Token) → AllByRecursion IsWritable tokens → SpellsTokens 0 (layout_of tokens) tokens }
{}

/// The canonical spelling of a tree that some text spells itself spells tokens: those of the tree, without the empty `else`s.
pub fn canonical_spells_tokens()
    ensures { (text : List ℕ) (spec : Spec) → Spells text spec →
        SpellsTokens 0 (canonical spec) (tokens_of (pieces_of_spec (λ place block. is_empty block) spec)) }
{}

/// The canonical spelling of a tree that some text spells is a text of a tree that is the same but for its places. Where that text
/// keeps to the limit of braces, the canonical one does.
pub fn canonical_spells()
    ensures { (text : List ℕ) (spec : Spec) → (spells : Spells text spec) →
        (tree : Spec) × (again : Spells (canonical spec) tree) × (unplaced tree ≡ unplaced spec)
        × (IsWithinBraces 0 spells.tokens → IsWithinBraces 0 again.tokens) }
{}
