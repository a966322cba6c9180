//! Exchanges that no world explains.

ghost use Rattle.std.specs.Prelude.{◌≡◌, ◌++◌, [], ◌∷◌, List, codes, true, ℕ};
ghost use Rattle.spec_model.specs.declared.event.ClientEvent.TheVariants as clients;
ghost use Rattle.spec_model.specs.declared.event.Framing.TheVariants.{Line};
ghost use Rattle.spec_model.specs.declared.event.ServerEvent.{ServerEvent};
ghost use Rattle.spec_model.specs.declared.tree.Alphabet.TheVariants.{Hex};
ghost use Rattle.spec_model.specs.Run.{IsRun};
ghost use Rattle.spec_model.specs.Step.{may_be_picked};
ghost use Rattle.spec_model.specs.Verdict.{IsRejectedAt};
ghost use Rattle.spec_model.specs.World.{server_sends, server_takes, IsExplained, IsPrefixOf};
ghost use Rattle.model_examples.specs.Echo.{echo};
ghost use Rattle.model_examples.specs.Events.{receives, sends};
ghost use Rattle.model_examples.specs.Tokens.{tokens};

/// The echo server, in each of its runs, however long: the messages that it sent on a connection are the first of those that it
/// took there, in their order. No definition says so: it follows from the two statements of its loop.
pub fn echoes_in_order()
    ensures { (events : List ServerEvent) → IsRun echo events → (conn : ℕ) →
        IsPrefixOf (server_sends conn events) (server_takes conn events) }
{}

/// The echo server: a client that sent nothing receives `a`. The server can send only what it took, and it can take only
/// what was sent. So the first event is rejected.
pub fn receipt_of_nothing()
    ensures unexplained { ¬ IsExplained echo (receives 0 "a" ∷ []) }
    ensures rejected { IsRejectedAt echo (receives 0 "a" ∷ []) 1 }
{}

/// The echo server: a client sends `a` and then `b`, and receives `b` first. On one connection nothing overtakes: `a` is taken
/// and answered first. The two sends alone are explained, since silence is, so the receipt is what is rejected.
pub fn overtaking_reply()
    ensures unexplained { ¬ IsExplained echo (sends 0 "a" ∷ sends 0 "b" ∷ receives 0 "b" ∷ []) }
    ensures rejected { IsRejectedAt echo (sends 0 "a" ∷ sends 0 "b" ∷ receives 0 "b" ∷ []) 3 }
{}

/// The echo server: a client sends `a`, and what comes back begins no message. No server sends such bytes, so whatever came before
/// them, no world explains them.
pub fn garbled_bytes()
    ensures unexplained { ¬ IsExplained echo (sends 0 "a" ∷ clients.Garbles 0 ∷ []) }
    ensures rejected { IsRejectedAt echo (sends 0 "a" ∷ clients.Garbles 0 ∷ []) 2 }
{}

/// The server of tokens: a client asks for a token and receives a message. That is explained only where the message is `id ` and
/// six hexadecimal digits, whichever message it is.
pub fn only_tokens_are_given_out()
    ensures { (message : List ℕ) → IsExplained tokens (sends 0 "new" ∷ clients.Receives 0 message ∷ []) →
        (token : List ℕ) × (may_be_picked Line 6 Hex token ≡ true) × (message ≡ codes "id " ++ token) }
{}

/// The server of tokens: a client asks for a token and receives one of five digits. A pick has exactly its length.
pub fn pick_one_byte_short()
    ensures unexplained { ¬ IsExplained tokens (sends 0 "new" ∷ receives 0 "id 0a1b2" ∷ []) }
    ensures rejected { IsRejectedAt tokens (sends 0 "new" ∷ receives 0 "id 0a1b2" ∷ []) 2 }
{}

/// The server of tokens: a client asks for a token and receives one with capital letters. A pick stays in its alphabet.
pub fn pick_outside_its_alphabet()
    ensures unexplained { ¬ IsExplained tokens (sends 0 "new" ∷ receives 0 "id 0A1B2C" ∷ []) }
    ensures rejected { IsRejectedAt tokens (sends 0 "new" ∷ receives 0 "id 0A1B2C" ∷ []) 2 }
{}
