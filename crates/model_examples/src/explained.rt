//! Exchanges that are explained, each with a world that explains it.

ghost use Rattle.std.specs.Prelude.{[], ◌∷◌, false, true};
ghost use Rattle.spec_model.specs.declared.event.WorldEvent.TheVariants.{Client, Server};
ghost use Rattle.spec_model.specs.Run.{IsRun};
ghost use Rattle.spec_model.specs.World.{Explains};
ghost use Rattle.model_examples.specs.Echo.{echo};
ghost use Rattle.model_examples.specs.Events.{arm, pick, receives, send, sends, take, test};
ghost use Rattle.model_examples.specs.Greeting.{greeting};
ghost use Rattle.model_examples.specs.Ping.{ping};
ghost use Rattle.model_examples.specs.Store.{store};
ghost use Rattle.model_examples.specs.Tokens.{tokens};

/// The echo server, before anything happened: the exchange of no events is explained by the world of no events. So each
/// exchange begins as an explained one.
pub fn no_events()
    ensures { Explains echo [] [] }
{}

/// The echo server: a client sends `a` and receives `a`. The server takes the message and sends it back, both directly
/// before the receipt. This is the smallest world in which a server moves.
pub fn one_echo()
    ensures { Explains echo
        (Client (sends 0 "a") ∷ Server (take 0 "a") ∷ Server (send 0 "a") ∷ Client (receives 0 "a") ∷ [])
        (sends 0 "a" ∷ receives 0 "a" ∷ []) }
{}

/// The echo server, with a client on each of its two connections: both send, and the one that sent last receives its reply
/// first. The server serves connection 0 first, and its reply waits there: delays are free, and nothing orders two
/// connections.
pub fn two_echoes_crossed()
    ensures { Explains echo
        (Client (sends 0 "a") ∷ Client (sends 1 "b")
        ∷ Server (take 0 "a") ∷ Server (send 0 "a") ∷ Server (take 1 "b") ∷ Server (send 1 "b")
        ∷ Client (receives 1 "b") ∷ Client (receives 0 "a") ∷ [])
        (sends 0 "a" ∷ sends 1 "b" ∷ receives 1 "b" ∷ receives 0 "a" ∷ []) }
{}

/// The server of tokens: one client asks for a token, another asks whether `0a1b2c` is the last one and is told yes, and only
/// then the first receives its token, which is that text. The server picked it before any client saw it. So a
/// pick can be bound by the outcome of a test, and what is received later has to agree with it.
pub fn pick_bound_before_it_is_seen()
    ensures { Explains tokens
        (Client (sends 0 "new") ∷ Client (sends 1 "is 0a1b2c")
        ∷ Server (take 0 "new") ∷ Server (pick "0a1b2c") ∷ Server (send 0 "id 0a1b2c")
        ∷ Server (take 1 "is 0a1b2c") ∷ Server (test true) ∷ Server (send 1 "yes")
        ∷ Client (receives 1 "yes") ∷ Client (receives 0 "id 0a1b2c") ∷ [])
        (sends 0 "new" ∷ sends 1 "is 0a1b2c" ∷ receives 1 "yes" ∷ receives 0 "id 0a1b2c" ∷ []) }
{}

/// The server of tokens, asked the same: but the second client is told no, and the first receives the very text that was
/// asked for. Then the server took the question first, while its last token was still `none`. So an exchange can tell
/// in which order the server took messages of two connections.
pub fn test_fails_before_the_pick()
    ensures { Explains tokens
        (Client (sends 0 "new") ∷ Client (sends 1 "is 0a1b2c")
        ∷ Server (take 1 "is 0a1b2c") ∷ Server (test false) ∷ Server (send 1 "no")
        ∷ Client (receives 1 "no")
        ∷ Server (take 0 "new") ∷ Server (pick "0a1b2c") ∷ Server (send 0 "id 0a1b2c")
        ∷ Client (receives 0 "id 0a1b2c") ∷ [])
        (sends 0 "new" ∷ sends 1 "is 0a1b2c" ∷ receives 1 "no" ∷ receives 0 "id 0a1b2c" ∷ []) }
{}

/// The server that greets: a client which has sent nothing receives `hi`. What stands in `start` is done before the
/// first message is taken.
pub fn greeted_unasked()
    ensures { Explains greeting
        (Server (send 0 "hi") ∷ Client (receives 0 "hi") ∷ [])
        (receives 0 "hi" ∷ []) }
{}

/// The server of tokens: a client asks for a token and receives none yet, and another asks whether `000000` is the last one and
/// is told no. No client sees the pick. Any text but `000000` would do, and the world has the least of those.
pub fn pick_never_seen()
    ensures explained { Explains tokens
        (Client (sends 0 "new") ∷ Client (sends 1 "is 000000")
        ∷ Server (take 0 "new") ∷ Server (pick "000001") ∷ Server (send 0 "id 000001")
        ∷ Server (take 1 "is 000000") ∷ Server (test false) ∷ Server (send 1 "no")
        ∷ Client (receives 1 "no") ∷ [])
        (sends 0 "new" ∷ sends 1 "is 000000" ∷ receives 1 "no" ∷ []) }
    // With the least text of all the test does not fail.
    ensures not_the_least_of_all { ¬ IsRun tokens
        (take 0 "new" ∷ pick "000000" ∷ send 0 "id 000000" ∷ take 1 "is 000000" ∷ test false ∷ []) }
{}

/// The store: a key has the value 1, a client asks for it while another gives it the value 2, and the reader is told 2 before
/// the writer is told that it is done. The server took the write first. The put and the get each compare their key with
/// that of the one pair, and each comparison is an event.
pub fn two_writers()
    ensures { Explains store
        (Client (sends 0 "SET x 1") ∷ Server (take 0 "SET x 1") ∷ Server (send 0 "OK") ∷ Client (receives 0 "OK")
        ∷ Client (sends 1 "GET x") ∷ Client (sends 2 "SET x 2")
        ∷ Server (take 2 "SET x 2") ∷ Server (test true) ∷ Server (send 2 "OK")
        ∷ Server (take 1 "GET x") ∷ Server (test true) ∷ Server (send 1 "VALUE 2")
        ∷ Client (receives 1 "VALUE 2") ∷ Client (receives 2 "OK") ∷ [])
        (sends 0 "SET x 1" ∷ receives 0 "OK" ∷ sends 1 "GET x" ∷ sends 2 "SET x 2"
        ∷ receives 1 "VALUE 2" ∷ receives 2 "OK" ∷ []) }
{}

/// The server of pings: a ping is answered `busy`. The server chose the second of its two arms, which have the numbers 0 and 1.
pub fn ping_answered_busy()
    ensures { Explains ping
        (Client (sends 0 "ping") ∷ Server (take 0 "ping") ∷ Server (arm 1) ∷ Server (send 0 "busy")
        ∷ Client (receives 0 "busy") ∷ [])
        (sends 0 "ping" ∷ receives 0 "busy" ∷ []) }
{}
