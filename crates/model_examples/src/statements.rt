//! Runs of the specification in which every kind of statement stands.

ghost use Rattle.std.specs.Prelude.{◌≡◌, ◌∷◌, ◌++◌, [], Some, codes, false, slice_get, true};
ghost use Rattle.spec_model.specs.declared.config.Value.TheVariants.{Number, Text};
ghost use Rattle.spec_model.specs.Run.{IsRun};
ghost use Rattle.spec_model.specs.Table.{pairs_in};
ghost use Rattle.spec_model.specs.Value.{value_named};
ghost use Rattle.model_examples.specs.Events.{arm, pick, send, take, test};
ghost use Rattle.model_examples.specs.EveryKind.{every_kind, greeting_bytes};
ghost use Rattle.model_examples.specs.EveryKindRuns.{key_picked, started};
ghost use Rattle.model_examples.specs.RunEnds.{EndsWhere};
ghost use Rattle.model_examples.specs.TableRuns.{pair};

/// Every kind of statement, in `start`: a pick of any bytes and one of letters and digits, a condition on two constants, which
/// shows a test all the same, and a send to a connection that is written as a number. What is sent is kept as its parts,
/// a register's text and a pick.
pub fn start()
    ensures { EndsWhere every_kind started
        (λ end. slice_get end.sent 0 ≡ Some ((greeting_bytes ∷ key_picked ∷ []) ∷ [])) }
{}

/// Every kind of statement, in the case for numbers: the register holds the greatest number, 5 is added, which leaves it there, and 1 is taken off. It is
/// not below 10, so the `else` sets it to 0. With 6 then it is 5, below 10, and is sent in decimal.
pub fn numbers()
    ensures one_less_than_the_greatest { EndsWhere every_kind (started ++ take 1 "add 5,more" ∷ [])
        (λ end. value_named end (codes "count") ≡ Some (Number 18446744073709551614)) }
    ensures else_block { EndsWhere every_kind (started ++ take 1 "add 5,more" ∷ test false ∷ [])
        (λ end. value_named end (codes "count") ≡ Some (Number 0)) }
    ensures sent_in_decimal { EndsWhere every_kind
        (started ++ take 1 "add 5,more" ∷ test false ∷ take 1 "add 6," ∷ test true ∷ send 1 "5" ∷ [])
        (λ end. slice_get end.sent 1 ≡ Some ((codes "5" ∷ []) ∷ [])) }
{}

/// Every kind of statement, in the case for one word: a name that is not in the table is put there, and is then found by a second look-up. When the name
/// comes again it is found and removed, and the second look-up, in a table without pairs, compares nothing.
pub fn look_ups()
    ensures put_where_missing { EndsWhere every_kind (started ++ take 2 "ann" ∷ test true ∷ send 0 "VALUE new" ∷ [])
        (λ end. pairs_in end (codes "names") ≡ Some (pair "ann" "new" ∷ [])) }
    // What passed is kept for each connection, in order.
    ensures taken_and_sent { EndsWhere every_kind (started ++ take 2 "ann" ∷ test true ∷ send 0 "VALUE new" ∷ [])
        (λ end. (slice_get end.taken 2 ≡ Some (codes "ann" ∷ []))
        × (slice_get end.sent 0 ≡ Some (
        (greeting_bytes ∷ key_picked ∷ []) ∷ (codes "VALUE " ∷ codes "new" ∷ []) ∷ []))) }
    ensures removed_where_found { EndsWhere every_kind
        (started ++ take 2 "ann" ∷ test true ∷ send 0 "VALUE new" ∷ take 2 "ann" ∷ test true ∷ test true ∷ [])
        (λ end. pairs_in end (codes "names") ≡ Some []) }
{}

/// Every kind of statement, in `other`: a second message is taken from the connection in a register alone, `where` has no step where its
/// condition fails, an `if` without statements shows its test all the same, and there are as many arms as are written.
pub fn choices()
    ensures first_arm { EndsWhere every_kind
        (started ++ take 1 "two words" ∷ take 0 "go" ∷ test true ∷ test false ∷ arm 0 ∷ pick "0123abcd" ∷ [])
        (λ end. value_named end (codes "greeting") ≡ Some (Text (codes "0123abcd"))) }
    ensures second_arm { EndsWhere every_kind
        (started ++ take 1 "two words" ∷ take 0 "go" ∷ test true ∷ test false ∷ arm 1 ∷ [])
        (λ end. value_named end (codes "last") ≡ Some (Number 1)) }
    ensures third_arm { EndsWhere every_kind
        (started ++ take 1 "two words" ∷ take 0 "go" ∷ test true ∷ test false ∷ arm 2 ∷ send 2 "done" ∷ [])
        (λ end. slice_get end.sent 2 ≡ Some ((codes "done" ∷ []) ∷ [])) }
    ensures no_fourth_arm { ¬ IsRun every_kind
        (started ++ take 1 "two words" ∷ take 0 "go" ∷ test true ∷ test false ∷ arm 3 ∷ []) }
    ensures only_from_that_connection { ¬ IsRun every_kind (started ++ take 1 "two words" ∷ take 1 "go" ∷ []) }
    ensures where_does_not_fail { ¬ IsRun every_kind (started ++ take 1 "stop now" ∷ take 0 "go" ∷ test false ∷ []) }
    ensures where_does_not_hold { ¬ IsRun every_kind (started ++ take 1 "stop now" ∷ take 0 "go" ∷ test true ∷ []) }
{}
