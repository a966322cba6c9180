//! Laws of runs of accepted specifications.

ghost use Rattle.std.specs.Prelude.{◌≡◌, ◌+◌, ◌*◌, ◌≤◌, ◌++◌, List, count_by, false};
ghost use Rattle.std.specs.List.{list_any};
ghost use Rattle.spec_model.specs.declared.event.ServerEvent.{ServerEvent};
ghost use Rattle.spec_model.specs.declared.tree.Spec.{Spec};
ghost use Rattle.spec_model.specs.Run.{IsRun};
ghost use Rattle.spec_rules.specs.Accepted.{IsAccepted};
ghost use Rattle.spec_paths.specs.Tests.{is_take, is_test, most_tests};

/// A run of an accepted specification compares at most 3,840 times, 15 statements with 256 pairs of a table each, in a part without a take. So
/// with 4,096 takes it compares at most 15,732,480 times.
pub fn few_tests()
    ensures without_take { (spec : Spec) (before stretch after : List ServerEvent) → IsAccepted spec → IsRun spec (before ++ (stretch ++ after)) → list_any is_take stretch ≡ false → count_by is_test stretch ≤ most_tests }
    ensures by_takes { (spec : Spec) (events : List ServerEvent) → IsAccepted spec → IsRun spec events → count_by is_test events ≤ most_tests * (count_by is_take events + 1) }
    ensures in_all { (spec : Spec) (events : List ServerEvent) → IsAccepted spec → IsRun spec events → count_by is_take events ≤ 4096 → count_by is_test events ≤ 15732480 }
{}
