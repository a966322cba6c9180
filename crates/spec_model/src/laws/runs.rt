//! Laws of runs.

ghost use Rattle.std.specs.Prelude.{◌≡◌, ◌++◌, List};
ghost use Rattle.spec_model.specs.declared.config.Config.{Config};
ghost use Rattle.spec_model.specs.declared.event.ServerEvent.{ServerEvent};
ghost use Rattle.spec_model.specs.declared.tree.Spec.{Spec};
ghost use Rattle.spec_model.specs.Run.{BeginsWithRecv, IsRun, RunsTo, Settles};

/// What begins a run is a run.
pub fn run_prefix()
    ensures { (spec : Spec) (events more : List ServerEvent) → IsRun spec (events ++ more) → IsRun spec events }
{}

/// The silent work of a configuration has one outcome. It ends, where the loop begins with a `recv`.
pub fn silent_work()
    ensures one { (spec : Spec) (from to other : Config) → Settles spec from to → Settles spec from other → to ≡ other }
    ensures ends { (spec : Spec) → BeginsWithRecv spec → (from : Config) → (to : Config) × Settles spec from to }
{}

/// A run ends in one configuration.
pub fn one_end()
    ensures { (spec : Spec) (events : List ServerEvent) (to other : Config) →
        RunsTo spec events to → RunsTo spec events other → to ≡ other }
{}
