//! What patterns fit.

ghost use Rattle.std.specs.Prelude.{◌≡◌, ◌∷◌, ◌++◌, [], None, Some, codes};
ghost use Rattle.spec_model.specs.declared.config.Value.TheVariants.{Number, Text};
ghost use Rattle.spec_model.specs.Pattern.{bindings_of, pieces_of};
ghost use Rattle.spec_model.specs.Step.{chosen_case};
ghost use Rattle.spec_model.specs.Value.{value_named};
ghost use Rattle.model_examples.specs.Events.{take};
ghost use Rattle.model_examples.specs.EveryKind.{every_kind};
ghost use Rattle.model_examples.specs.EveryKindRuns.{started};
ghost use Rattle.model_examples.specs.RunEnds.{EndsWhere};
ghost use Rattle.model_examples.specs.Writing.{block, case_, literal, num, rest, word};

/// A hole for a number fits 0 alone among the texts that begin with the digit 0, and the greatest number and none above it, so
/// each number has one spelling. It binds the number. A message that does not fit for this goes on to the `other` case.
pub fn num_with_a_leading_zero()
    ensures leading_zero { pieces_of (num "n" ∷ []) (codes "007") ≡ None }
    ensures zero { pieces_of (num "n" ∷ []) (codes "0") ≡ Some (codes "0" ∷ []) }
    ensures no_digit { pieces_of (num "n" ∷ []) [] ≡ None }
    ensures greatest { pieces_of (num "n" ∷ []) (codes "18446744073709551615")
        ≡ Some (codes "18446744073709551615" ∷ []) }
    ensures past_the_greatest { pieces_of (num "n" ∷ []) (codes "18446744073709551616") ≡ None }
    ensures bound { bindings_of (num "n" ∷ []) (codes "42" ∷ [])
        ≡ record { name = codes "n"; value = Number 42 } ∷ [] }
    ensures falls_to_other { EndsWhere every_kind (started ++ take 1 "add 007,x" ∷ [])
        (λ end. value_named end (codes "m") ≡ Some (Text (codes "add 007,x"))) }
{}

/// A pattern is matched from the left and never goes back: a hole takes the longest run, even where a shorter one would leave
/// what the next item wants. A word has a byte at least, the rest may have none, and the message is to be used up.
pub fn matched_without_going_back()
    ensures longest_word { pieces_of (word "k" ∷ literal "x" ∷ []) (codes "abx") ≡ None }
    ensures longest_number { pieces_of (num "a" ∷ num "b" ∷ []) (codes "12") ≡ None }
    ensures no_word { pieces_of (literal "is " ∷ word "k" ∷ []) (codes "is ") ≡ None }
    ensures no_rest { pieces_of (literal "SET " ∷ word "k" ∷ literal " " ∷ rest "v" ∷ []) (codes "SET a ")
        ≡ Some (codes "SET " ∷ codes "a" ∷ codes " " ∷ [] ∷ []) }
    ensures not_used_up { pieces_of (literal "ping" ∷ []) (codes "pings") ≡ None }
{}

/// Two cases of which both fit `x`: the first is chosen, and its names are bound. To a message that none fits `other` is chosen,
/// and its name is bound to the whole message.
pub fn first_case_that_fits()
    ensures first { (chosen_case (case_ (word "k" ∷ []) [] ∷ case_ (literal "x" ∷ []) [] ∷ []) (codes "m") (block []) (codes "x")).bound
        ≡ record { name = codes "k"; value = Text (codes "x") } ∷ [] }
    ensures other { (chosen_case (case_ (word "k" ∷ []) [] ∷ case_ (literal "x" ∷ []) [] ∷ []) (codes "m") (block []) (codes "x y")).bound
        ≡ record { name = codes "m"; value = Text (codes "x y") } ∷ [] }
{}
