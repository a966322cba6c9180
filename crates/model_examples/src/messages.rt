//! Messages and frames.

ghost use Rattle.std.specs.Prelude.{◌≡◌, ◌∷◌, ◌++◌, [], Some, codes, replicate, slice_get};
ghost use Rattle.spec_model.specs.declared.event.Framing.TheVariants.{Len16, Line};
ghost use Rattle.spec_model.specs.declared.event.ServerEvent.TheVariants as servers;
ghost use Rattle.spec_model.specs.Message.{frame_of, IsMessage};
ghost use Rattle.spec_model.specs.Run.{IsRun};
ghost use Rattle.model_examples.specs.Echo.{echo};
ghost use Rattle.model_examples.specs.Events.{arm};
ghost use Rattle.model_examples.specs.EveryKind.{every_kind};
ghost use Rattle.model_examples.specs.RunEnds.{EndsWhere};
ghost use Rattle.model_examples.specs.Store.{store};

/// In `line` framing a message is written with one LF behind it, and in `len16` framing with its length in two bytes before it,
/// the greater first: 300 is 1 times 256 and 44.
pub fn frames()
    ensures line { frame_of Line (codes "hi") ≡ codes "hi\n" }
    ensures len16 { frame_of Len16 (codes "hi") ≡ 0 ∷ 2 ∷ codes "hi" }
    ensures greater_byte_first { frame_of Len16 (replicate 300 120) ≡ 1 ∷ 44 ∷ replicate 300 120 }
{}

/// The echo server has lines of at most 64 bytes: a message of 64 passes, one of 65 does not, nor one with LF in it, while CR is a
/// byte as any other. The other server has `len16` framing, in which LF may stand too.
pub fn limits_of_messages()
    ensures longest { IsMessage echo.shape (replicate 64 120) }
    ensures too_long { ¬ IsMessage echo.shape (replicate 65 120) }
    ensures line_feed { ¬ IsMessage echo.shape (codes "a\nb") }
    ensures carriage_return { IsMessage echo.shape (codes "a\r") }
    ensures line_feed_in_len16 { IsMessage every_kind.shape (codes "a\nb") }
{}

/// The store, which has lines of at most 256 bytes, answers a message of 252 bytes by that message and four bytes more. To one of
/// 253 bytes that answer is no message, so the server has no such step, and neither one that cuts it.
pub fn answer_past_the_limit()
    ensures within { EndsWhere store
        (servers.Take 0 (replicate 252 120) ∷ arm 1 ∷ servers.Send 0 (codes "ERR " ++ replicate 252 120) ∷ [])
        (λ end. slice_get end.sent 0 ≡ Some ((codes "ERR " ∷ replicate 252 120 ∷ []) ∷ [])) }
    ensures past { ¬ IsRun store
        (servers.Take 0 (replicate 253 120) ∷ arm 1 ∷ servers.Send 0 (codes "ERR " ++ replicate 253 120) ∷ []) }
    ensures not_cut { ¬ IsRun store
        (servers.Take 0 (replicate 253 120) ∷ arm 1 ∷ servers.Send 0 (codes "ERR " ++ replicate 252 120) ∷ []) }
{}
