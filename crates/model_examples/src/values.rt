//! Names, numbers and picks.

ghost use Rattle.std.specs.Prelude.{◌≡◌, ◌∷◌, ◌++◌, [], List, None, Some, codes, false, true};
ghost use Rattle.spec_model.specs.declared.config.Binding.{Binding};
ghost use Rattle.spec_model.specs.declared.config.Config.{Config};
ghost use Rattle.spec_model.specs.declared.config.Task.{Task};
ghost use Rattle.spec_model.specs.declared.config.Value.TheVariants.{Number, Text};
ghost use Rattle.spec_model.specs.declared.event.Framing.TheVariants.{Len16, Line};
ghost use Rattle.spec_model.specs.declared.tree.Alphabet.TheVariants.{Alnum, Any, Hex};
ghost use Rattle.spec_model.specs.declared.tree.Sign.TheVariants.{Minus, Plus};
ghost use Rattle.spec_model.specs.declared.tree.Spec.{Spec};
ghost use Rattle.spec_model.specs.Config.{after_entering};
ghost use Rattle.spec_model.specs.Step.{after_silent_work, may_be_picked};
ghost use Rattle.spec_model.specs.Value.{sum_or_difference, value_named};
ghost use Rattle.model_examples.specs.Events.{pick, send, take};
ghost use Rattle.model_examples.specs.EveryKind.{every_kind};
ghost use Rattle.model_examples.specs.EveryKindRuns.{started};
ghost use Rattle.model_examples.specs.RunEnds.{EndsWhere};
ghost use Rattle.model_examples.specs.Tokens.{tokens};
ghost use Rattle.model_examples.specs.Writing.{block};

/// The server of tokens: the name of its pick is known to the end of the block in which the pick stands, and no further, while the
/// register that was set to the pick keeps it. Where a block stands in another, as in the specification with every kind
/// of statement, the names of the outer one stay. For any specification and configuration: a block without statements,
/// whatever names are bound in it, leaves the configuration as it was, with the rest to do.
pub fn name_forgotten_at_its_blocks_end()
    ensures within { EndsWhere tokens (take 0 "new" ∷ pick "0a1b2c" ∷ [])
        (λ end. value_named end (codes "t") ≡ Some (Text (codes "0a1b2c"))) }
    ensures behind { EndsWhere tokens (take 0 "new" ∷ pick "0a1b2c" ∷ send 0 "id 0a1b2c" ∷ [])
        (λ end. (value_named end (codes "t") ≡ None)
        × (value_named end (codes "last") ≡ Some (Text (codes "0a1b2c")))) }
    ensures inner_block { EndsWhere every_kind (started ++ take 1 "two words" ∷ take 0 "go" ∷ [])
        (λ end. (value_named end (codes "again") ≡ None)
        × (value_named end (codes "m") ≡ Some (Text (codes "two words")))
        × (value_named end (codes "c") ≡ Some (Number 1))) }
    ensures empty_block { (spec : Spec) (c : Config) (rest : List Task) (bound : List Binding) →
        after_silent_work spec (after_entering c rest (block []) bound) ≡ Some (record c { todo = rest }) }
{}

/// Sums and differences, whatever the specification: a sum past the greatest number is that number, so adding to it changes
/// nothing, and a difference below 0 is 0. Nothing wraps.
pub fn sums_and_differences()
    ensures greatest { sum_or_difference Plus 18446744073709551614 1 ≡ 18446744073709551615 }
    ensures past_the_greatest { sum_or_difference Plus 18446744073709551615 1 ≡ 18446744073709551615 }
    ensures difference { sum_or_difference Minus 5 3 ≡ 2 }
    ensures below_zero { sum_or_difference Minus 3 5 ≡ 0 }
{}

/// Picks, by their length and alphabet: `hex` has no capitals and nothing behind f, `alnum` nothing beside its three ranges, and
/// `any` has every byte, but in `line` framing not LF.
pub fn alphabets()
    ensures hex { may_be_picked Line 16 Hex (codes "0123456789abcdef") ≡ true }
    ensures not_hex { (may_be_picked Line 6 Hex (codes "00000A") ≡ false) × (may_be_picked Line 6 Hex (codes "00000g") ≡ false) }
    ensures alnum { may_be_picked Line 6 Alnum (codes "09AZaz") ≡ true }
    ensures not_alnum { (may_be_picked Line 6 Alnum (codes "00000@") ≡ false) × (may_be_picked Line 6 Alnum (codes "00000[") ≡ false)
        × (may_be_picked Line 6 Alnum (codes "00000`") ≡ false) × (may_be_picked Line 6 Alnum (codes "00000{") ≡ false) }
    ensures any { may_be_picked Line 6 Any (0 ∷ 13 ∷ 32 ∷ 127 ∷ 254 ∷ 255 ∷ []) ≡ true }
    ensures not_any { (may_be_picked Line 6 Any (codes "00000\n") ≡ false) × (may_be_picked Len16 6 Any (codes "00000\n") ≡ true) }
    ensures exact_length { (may_be_picked Line 6 Hex (codes "00000") ≡ false) × (may_be_picked Line 6 Hex (codes "0000000") ≡ false) }
{}
