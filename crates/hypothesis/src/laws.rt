//! Laws of hypotheses.

ghost use Rattle.std.specs.Prelude.{◌≡◌, ◌↔◌, ◌++◌, ◌∷◌, [], List, ℕ};
ghost use Rattle.spec_model.specs.declared.event.ClientEvent.{ClientEvent};
ghost use Rattle.spec_model.specs.declared.event.ClientEvent.TheVariants as clients;
ghost use Rattle.spec_model.specs.declared.event.Mark.{Mark};
ghost use Rattle.spec_model.specs.Alike.{AreAlike, SkeletonExplains};
ghost use Rattle.spec_model.specs.Skeleton.{sends_in};
ghost use Rattle.dual_tree.specs.Dual.{DualFields, IsDual};
ghost use Rattle.hypothesis.specs.declared.hypothesis.Hypothesis.{Hypothesis};
ghost use Rattle.hypothesis.specs.Left.{IsAlike};
ghost use Rattle.hypothesis.specs.Received.{with_receipt};
ghost use Rattle.hypothesis.specs.Stands.{StandsFor};

/// A hypothesis that stands for a skeleton stands for it where a client sent more.
pub fn waits()
    ensures { (dual : DualFields) (exchange : List ClientEvent) (conn : ℕ) (message : List ℕ) (skeleton : List Mark) (h : Hypothesis) → IsDual dual
        → StandsFor dual exchange skeleton h → StandsFor dual (exchange ++ clients.Sends conn message ∷ []) skeleton h }
{}

/// Hypotheses are alike exactly where their skeletons are.
pub fn alike_skeletons()
    ensures { (dual : DualFields) (exchange : List ClientEvent) (skeleton other : List Mark) (h g : Hypothesis) → IsDual dual
        → StandsFor dual exchange skeleton h → StandsFor dual exchange other g → IsAlike h g ↔ AreAlike dual.spec exchange skeleton other }
{}

/// Where a skeleton explains an exchange, one that is alike goes on alike: by the same marks, where a client sends, and over the same
/// receipts; and it sends as many messages on each connection.
pub fn alike_go_on()
    ensures moves { (dual : DualFields) (exchange : List ClientEvent) (skeleton other more : List Mark) → IsDual dual
        → SkeletonExplains dual.spec exchange skeleton → AreAlike dual.spec exchange skeleton other
        → SkeletonExplains dual.spec exchange (skeleton ++ more)
        → SkeletonExplains dual.spec exchange (other ++ more) × AreAlike dual.spec exchange (skeleton ++ more) (other ++ more) }
    ensures sends { (dual : DualFields) (exchange : List ClientEvent) (conn : ℕ) (message : List ℕ) (skeleton other : List Mark) → IsDual dual
        → SkeletonExplains dual.spec exchange skeleton → AreAlike dual.spec exchange skeleton other
        → SkeletonExplains dual.spec (exchange ++ clients.Sends conn message ∷ []) other
        × AreAlike dual.spec (exchange ++ clients.Sends conn message ∷ []) skeleton other }
    ensures receives { (dual : DualFields) (exchange : List ClientEvent) (conn : ℕ) (message : List ℕ) (skeleton other : List Mark) → IsDual dual
        → AreAlike dual.spec exchange skeleton other → SkeletonExplains dual.spec (with_receipt exchange conn message) skeleton
        → SkeletonExplains dual.spec (with_receipt exchange conn message) other × AreAlike dual.spec (with_receipt exchange conn message) skeleton other }
    ensures counts { (dual : DualFields) (exchange : List ClientEvent) (skeleton other : List Mark) → IsDual dual
        → SkeletonExplains dual.spec exchange skeleton → AreAlike dual.spec exchange skeleton other
        → (conn : ℕ) → sends_in conn skeleton ≡ sends_in conn other }
{}
