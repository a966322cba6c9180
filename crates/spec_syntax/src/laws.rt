//! Laws of texts of specifications.

ghost use Rattle.std.specs.Prelude.{◌≡◌, List, ℕ};
ghost use Rattle.spec_model.specs.declared.tree.Spec.{Spec};
ghost use Rattle.spec_syntax.specs.Readable.{IsReadable};

/// A text is read as one tree at most.
pub fn one_tree()
    ensures { (text : List ℕ) (spec other : Spec) → IsReadable text spec → IsReadable text other → spec ≡ other }
{}
