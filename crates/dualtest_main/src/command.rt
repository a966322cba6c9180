//! What the words ask for.

ghost use Rattle.std.specs.Prelude.{◌∷◌, [], IfNone, IfSome, map, string_bytes};
ghost use Rattle.dualtest_main.specs.Asked.{command_of};
ghost use Rattle.dualtest_main.specs.Words.{Asks, IsCommand};

use crate::recipe::{Recipe, recipe_of};

/// A command of the program, with the names of its files.
#[derive(Clone, Copy, Debug)]
pub enum Command<'a> {
    /// Prints the canonical text of a specification that is accepted.
    Check(&'a str),
    /// Judges the exchange of the second file by the specification of the first.
    Judge(&'a str, &'a str),
    /// Replays the world of the third file for the exchange of the second, by the specification of the first.
    Replay(&'a str, &'a str, &'a str),
    /// Makes a script by the specification of the file.
    Script(&'a str, Recipe),
}

/// The command of these words, if they are those of one.
pub fn asked(words: &[String]) -> Option<Command<'_>>
    ensures asks { IfSome result (λ command. Asks (map string_bytes words.now) (command_of command)) }
    ensures none { IfNone result (¬ IsCommand (map string_bytes words.now)) }
{
    match words {
        [word, spec] => check(word, spec),
        [word, spec, exchange] => judge(word, spec, exchange),
        [word, spec, exchange, world] => replay(word, spec, exchange, world),
        [word, spec, seed, conns, steps] => script(word, spec, seed, conns, steps),
        _ => None,
    }
}

/// The check of this file, if these words ask for one.
fn check<'a>(word: &str, spec: &'a str) -> Option<Command<'a>>
    ensures asks { IfSome result (λ command. Asks (word.now ∷ spec.now ∷ []) (command_of command)) }
    ensures none { IfNone result (¬ IsCommand (word.now ∷ spec.now ∷ [])) }
{
    if word == "check" && !spec.is_empty() {
        Some(Command::Check(spec))
    } else {
        None
    }
}

/// The judgement of these files, if these words ask for one.
fn judge<'a>(word: &str, spec: &'a str, exchange: &'a str) -> Option<Command<'a>>
    ensures asks { IfSome result (λ command. Asks (word.now ∷ spec.now ∷ exchange.now ∷ []) (command_of command)) }
    ensures none { IfNone result (¬ IsCommand (word.now ∷ spec.now ∷ exchange.now ∷ [])) }
{
    if word == "judge" && !spec.is_empty() && !exchange.is_empty() {
        Some(Command::Judge(spec, exchange))
    } else {
        None
    }
}

/// The replay of these files, if these words ask for one.
fn replay<'a>(word: &str, spec: &'a str, exchange: &'a str, world: &'a str) -> Option<Command<'a>>
    ensures asks { IfSome result (λ command. Asks (word.now ∷ spec.now ∷ exchange.now ∷ world.now ∷ []) (command_of command)) }
    ensures none { IfNone result (¬ IsCommand (word.now ∷ spec.now ∷ exchange.now ∷ world.now ∷ [])) }
{
    if word == "replay" && !spec.is_empty() && !exchange.is_empty() && !world.is_empty() {
        Some(Command::Replay(spec, exchange, world))
    } else {
        None
    }
}

/// The script by this file of these numbers, if these words ask for one.
fn script<'a>(
    word: &str,
    spec: &'a str,
    seed: &str,
    conns: &str,
    steps: &str,
) -> Option<Command<'a>>
    ensures asks { IfSome result (λ command. Asks (word.now ∷ spec.now ∷ seed.now ∷ conns.now ∷ steps.now ∷ []) (command_of command)) }
    ensures none { IfNone result (¬ IsCommand (word.now ∷ spec.now ∷ seed.now ∷ conns.now ∷ steps.now ∷ [])) }
{
    if word == "script" && !spec.is_empty() {
        Some(Command::Script(spec, recipe_of(seed, conns, steps)?))
    } else {
        None
    }
}
