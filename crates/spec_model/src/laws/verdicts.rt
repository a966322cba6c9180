//! Laws of explanations and verdicts.

ghost use Rattle.std.specs.Prelude.{◌≡◌, List, take, ℕ};
ghost use Rattle.spec_model.specs.declared.event.ClientEvent.{ClientEvent};
ghost use Rattle.spec_model.specs.declared.event.WorldEvent.{WorldEvent};
ghost use Rattle.spec_model.specs.declared.tree.Spec.{Spec};
ghost use Rattle.spec_model.specs.Layout.{IsLate, IsShort};
ghost use Rattle.spec_model.specs.Verdict.{IsRejectedAt};
ghost use Rattle.spec_model.specs.World.{Explains, IsExplained, IsLegal, IsPrefixOf, server_of};

/// A prefix of a legal world is legal.
pub fn legal_prefix()
    ensures { (world : List WorldEvent) (count : ℕ) → IsLegal world → IsLegal (take count world) }
{}

/// A prefix of an explained exchange is explained.
pub fn explained_prefix()
    ensures { (spec : Spec) (exchange : List ClientEvent) (count : ℕ) →
        IsExplained spec exchange → IsExplained spec (take count exchange) }
{}

/// An explained exchange is explained by a world in the late layout with a short run, the first part of a run that explains it.
pub fn explained_late()
    ensures { (spec : Spec) (exchange : List ClientEvent) (world : List WorldEvent) → Explains spec world exchange →
        (late : List WorldEvent) × Explains spec late exchange × IsLate late × IsShort exchange (server_of late)
        × IsPrefixOf (server_of late) (server_of world) }
{}

/// An exchange is rejected at one event at most, and is then not explained.
pub fn one_rejection()
    ensures one { (spec : Spec) (exchange : List ClientEvent) (event other : ℕ) →
        IsRejectedAt spec exchange event → IsRejectedAt spec exchange other → event ≡ other }
    ensures unexplained { (spec : Spec) (exchange : List ClientEvent) (event : ℕ) →
        IsRejectedAt spec exchange event → ¬ IsExplained spec exchange }
{}
