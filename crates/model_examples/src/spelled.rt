//! The canonical spelling of specifications. It shows too that each tree of `specs/` is the tree of the text above it.

ghost use Rattle.std.specs.Prelude.{◌≡◌};
ghost use Rattle.spec_model.specs.Canonical.{canonical};
ghost use Rattle.model_examples.specs.Echo.{echo, echo_text};
ghost use Rattle.model_examples.specs.EveryKind.{every_kind, every_kind_text};
ghost use Rattle.model_examples.specs.Greeting.{greeting, greeting_text};
ghost use Rattle.model_examples.specs.Ping.{ping, ping_text};
ghost use Rattle.model_examples.specs.Store.{store, store_text};
ghost use Rattle.model_examples.specs.Tokens.{tokens, tokens_text};

/// The echo server: each clause of the header and each statement stands on a line of its own, two spaces further in for each
/// open brace, and a closing brace stands under the beginning of the line that opened it.
pub fn echo_server()
    ensures { canonical echo ≡ echo_text }
{}

/// The server of tokens: one space parts two tokens, nothing stands beside the colon of `k:word`, and `else` stands between its
/// two braces.
pub fn server_of_tokens()
    ensures { canonical tokens ≡ tokens_text }
{}

/// The server of pings: `or` stands between its two braces.
pub fn server_of_pings()
    ensures { canonical ping ≡ ping_text }
{}

/// The server that greets: `start` stands before the loop and is indented as it.
pub fn server_that_greets()
    ensures { canonical greeting ≡ greeting_text }
{}

/// The store: the declaration of a table has no value, and a pattern has holes between its texts.
pub fn key_value_store()
    ensures { canonical store ≡ store_text }
{}

/// A specification in which every kind of declaration, statement, item, condition and value stands: escapes in a text, the
/// greatest number, blocks without statements, an `else` that is left out since it has none, and three arms.
pub fn every_kind_of_statement()
    ensures { canonical every_kind ≡ every_kind_text }
{}
