//! The order of skeletons, and the layout of worlds.

ghost use Rattle.std.specs.Prelude.{◌∷◌, [], false, true};
ghost use Rattle.spec_model.specs.declared.event.WorldEvent.TheVariants.{Client, Server};
ghost use Rattle.spec_model.specs.Layout.{IsLate, IsShort};
ghost use Rattle.spec_model.specs.Skeleton.{skeleton_of, Precedes};
ghost use Rattle.model_examples.specs.Events.{arm, receives, send, sends, take, test};

/// Runs of the echo server, the server of pings and the server of tokens: the one that takes from the lower connection, chooses
/// the lower arm or sees a test hold comes first, whatever comes behind the first difference. What is in the messages does
/// not count.
pub fn order_of_skeletons()
    ensures lower_connection { Precedes
        (skeleton_of (take 0 "a" ∷ send 0 "a" ∷ take 1 "b" ∷ send 1 "b" ∷ []))
        (skeleton_of (take 1 "b" ∷ send 1 "b" ∷ [])) }
    ensures lower_arm { Precedes
        (skeleton_of (take 0 "ping" ∷ arm 0 ∷ send 0 "pong" ∷ []))
        (skeleton_of (take 0 "ping" ∷ arm 1 ∷ send 0 "busy" ∷ [])) }
    ensures test_that_holds { Precedes
        (skeleton_of (take 0 "is none" ∷ test true ∷ send 0 "yes" ∷ []))
        (skeleton_of (take 0 "is nobody" ∷ test false ∷ send 0 "no" ∷ [])) }
    ensures messages_do_not_count { ¬ Precedes
        (skeleton_of (take 0 "a" ∷ send 0 "a" ∷ []))
        (skeleton_of (take 0 "b" ∷ send 0 "b" ∷ [])) }
{}

/// The echo server: the world in which two echoes cross is in the late layout, with all that the server did directly before the
/// receipt of its last send, and its run is short. A run is not short that ends in a send which no client received.
pub fn late_and_short()
    ensures late { IsLate
        (Client (sends 0 "a") ∷ Client (sends 1 "b")
        ∷ Server (take 0 "a") ∷ Server (send 0 "a") ∷ Server (take 1 "b") ∷ Server (send 1 "b")
        ∷ Client (receives 1 "b") ∷ Client (receives 0 "a") ∷ []) }
    ensures short { IsShort
        (sends 0 "a" ∷ sends 1 "b" ∷ receives 1 "b" ∷ receives 0 "a" ∷ [])
        (take 0 "a" ∷ send 0 "a" ∷ take 1 "b" ∷ send 1 "b" ∷ []) }
    ensures not_short { ¬ IsShort (sends 0 "a" ∷ []) (take 0 "a" ∷ send 0 "a" ∷ []) }
{}
