//! Look-ups, and what tables hold.

ghost use Rattle.std.specs.Prelude.{◌≡◌, ◌∷◌, ◌++◌, [], List, Some, codes, false, length, slice_get, true};
ghost use Rattle.spec_model.specs.declared.config.Pair.{Pair};
ghost use Rattle.spec_model.specs.declared.config.Task.TheVariants.{Do};
ghost use Rattle.spec_model.specs.Run.{IsRun};
ghost use Rattle.spec_model.specs.Step.{after_silent_work};
ghost use Rattle.spec_model.specs.Table.{pairs_in};
ghost use Rattle.model_examples.specs.Events.{send, take, test};
ghost use Rattle.model_examples.specs.RunEnds.{EndsWhere};
ghost use Rattle.model_examples.specs.Store.{get_value, store};
ghost use Rattle.model_examples.specs.TableRuns.{pair, putting, store_with, two_keys_put};

/// The store: the newest pair stands first. A key that is put again gets its value where its pair stands, and a key that is
/// deleted leaves the other pairs as they were.
pub fn newest_pair_first()
    ensures put { EndsWhere store two_keys_put
        (λ end. pairs_in end (codes "kv") ≡ Some (pair "b" "2" ∷ pair "a" "1" ∷ [])) }
    ensures renewed { EndsWhere store (two_keys_put ++ take 0 "SET a 3" ∷ test false ∷ test true ∷ send 0 "OK" ∷ [])
        (λ end. pairs_in end (codes "kv") ≡ Some (pair "b" "2" ∷ pair "a" "3" ∷ [])) }
    ensures removed { EndsWhere store (two_keys_put ++ take 0 "DEL b" ∷ test true ∷ send 0 "OK" ∷ [])
        (λ end. pairs_in end (codes "kv") ≡ Some (pair "a" "1" ∷ [])) }
{}

/// The store, with two keys: a look-up for the older one has passed the newer pair. Then the statement stands first among
/// those to do, as it is written, with the one pair counted. The next comparison can only say yes. A look-up for a third
/// key passes both pairs, and then goes on in the second block by itself.
pub fn look_up_half_done()
    ensures half_done { EndsWhere store (two_keys_put ++ take 1 "GET a" ∷ test false ∷ [])
        (λ end. slice_get end.todo 0 ≡ Some (Do get_value 1)) }
    ensures found { EndsWhere store (two_keys_put ++ take 1 "GET a" ∷ test false ∷ test true ∷ send 1 "VALUE 1" ∷ [])
        (λ end. slice_get end.sent 1 ≡ Some ((codes "VALUE " ∷ codes "1" ∷ []) ∷ [])) }
    ensures not_passed { ¬ IsRun store (two_keys_put ++ take 1 "GET a" ∷ test false ∷ test false ∷ []) }
    ensures missing { EndsWhere store (two_keys_put ++ take 1 "GET c" ∷ test false ∷ test false ∷ send 1 "NONE" ∷ [])
        (λ end. slice_get end.sent 1 ≡ Some ((codes "NONE" ∷ []) ∷ [])) }
{}

/// The store, whichever pairs it has: a put that has passed all 255 puts a 256th, and drops none. A put that has passed all
/// 256 puts its pair to the front, and the one at the end, the oldest, is dropped.
pub fn full_table_drops_its_oldest_pair()
    ensures becomes_full { (pairs : List Pair) → length pairs ≡ 255 →
        after_silent_work store (store_with (putting 255 ∷ []) pairs)
        ≡ Some (store_with [] (pair "k" "v" ∷ pairs)) }
    ensures is_full { (pairs : List Pair) (oldest : Pair) → length pairs ≡ 255 →
        after_silent_work store (store_with (putting 256 ∷ []) (pairs ++ oldest ∷ []))
        ≡ Some (store_with [] (pair "k" "v" ∷ pairs)) }
{}
