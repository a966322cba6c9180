//! Laws of specifications that are accepted.

ghost use Rattle.std.specs.Prelude.{◌≡◌, List, ℕ};
ghost use Rattle.std.specs.List.{AllByRecursion};
ghost use Rattle.spec_model.specs.declared.config.Config.{Config};
ghost use Rattle.spec_model.specs.declared.event.ServerEvent.{ServerEvent};
ghost use Rattle.spec_model.specs.declared.tree.Spec.{Spec};
ghost use Rattle.spec_model.specs.Run.{BeginsWithRecv, RunsTo};
ghost use Rattle.spec_rules.specs.declared.fault.Fault.{Fault};
ghost use Rattle.spec_rules.specs.Accepted.{IsAccepted, IsFirstBad};
ghost use Rattle.spec_rules.specs.ToDo.{IsTaskOf};

/// A specification has one first fault at most, and then it is not accepted.
pub fn one_fault()
    ensures one { (spec : Spec) (fault other : Fault) (at other_at : ℕ) → IsFirstBad spec fault at → IsFirstBad spec other other_at → (fault ≡ other) × (at ≡ other_at) }
    ensures refused { (spec : Spec) (fault : Fault) (at : ℕ) → IsFirstBad spec fault at → ¬ IsAccepted spec }
{}

/// The loop of an accepted specification begins with a `recv`.
pub fn takes_first()
    ensures { (spec : Spec) → IsAccepted spec → BeginsWithRecv spec }
{}

/// What is to do where a run has led is made of ends of blocks and of statements of the specification.
pub fn to_do_stands()
    ensures { (spec : Spec) (events : List ServerEvent) (reached : Config) → RunsTo spec events reached → AllByRecursion (IsTaskOf spec) reached.todo }
{}
