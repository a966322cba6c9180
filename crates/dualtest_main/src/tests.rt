//! What the program answers, case by case.

mod checked;
mod faults;
mod judged;
mod limits;
mod long;
mod replayed;
mod scripted;

use crate::top::offline;
use dt_ports::mem_files::MemFiles;
use dt_ports::mem_sink::MemSink;
use std::alloc::{AllocError, Global};

/// Two connections; every message is sent back.
const ECHO: &str = "frame line 64 conns 2 loop { recv c { other m { send c m } } }";

/// `ping` is answered by `pong` or `busy`, and everything else by `err`.
const PING: &str = r#"
frame line 64 conns 1
loop {
  recv c {
    case "ping" { either { send c "pong" } or { send c "busy" } }
    other m { send c "err" }
  }
}
"#;

/// The server speaks first.
const HI: &str =
    "frame line 64 conns 1 start { send 0 \"hi\" } loop { recv c { other m { send c m } } }";

/// It hands out a token, and tells whether a token is the last one.
const TOK: &str = r#"
frame line 64 conns 2
text last = "none"
loop {
  recv c {
    case "new" { pick t 6 hex set last t send c "id " t }
    case "is " k:word { if k == last { send c "yes" } else { send c "no" } }
    other m { send c "err" }
  }
}
"#;

/// Four connections and one store.
const KV: &str = r#"
frame line 256 conns 4
table kv
loop {
  recv c {
    case "SET " k:word " " v:rest { put kv k v send c "OK" }
    case "GET " k:word { get kv k v { send c "VALUE " v } else { send c "NONE" } }
    case "DEL " k:word { del kv k send c "OK" }
    other m { either { send c "ERROR" } or { send c "ERR " m } }
  }
}
"#;

/// What is printed where the words are those of no command.
const USAGE: &str = "usage:
dualtest check SPEC
dualtest judge SPEC EXCHANGE
dualtest replay SPEC EXCHANGE WORLD
dualtest script SPEC SEED CONNS STEPS
";

/// What a call of the program answers: its status, and what it prints.
type Answer<'a> = (u8, &'a str);

fn strings(alloc: Global, words: &[&str]) -> Result<Vec<String>, AllocError> {
    let mut strings = Vec::new(alloc);
    for word in words {
        strings.push(String::from_str(alloc, word)?)?;
    }
    Ok(strings)
}

/// A text, between others, so many times.
fn repeated(
    alloc: Global,
    front: &str,
    piece: &str,
    count: usize,
    end: &str,
) -> Result<String, AllocError> {
    let mut text = String::from_str(alloc, front)?;
    for _ in 0..count {
        text.push_str(piece)?;
    }
    text.push_str(end)?;
    Ok(text)
}

/// The status with which these words over these two files end, and what is printed.
fn answered(
    alloc: Global,
    words: &[&str],
    spec: &str,
    events: &str,
) -> Result<(u8, Vec<u8>), AllocError> {
    let held = [("spec", spec.as_bytes()), ("events", events.as_bytes())];
    answered_over(alloc, words, &held)
}

/// The status with which these words over these files end, and what is printed.
fn answered_over(
    alloc: Global,
    words: &[&str],
    held: &[(&str, &[u8])],
) -> Result<(u8, Vec<u8>), AllocError> {
    let words = strings(alloc, words)?;
    let mut files = MemFiles::new(alloc, held, &[])?;
    let mut sink = MemSink::new(alloc, 400_000)?;
    let status = offline(alloc, &words, &mut files, &mut sink);
    Ok((status.number(), Vec::from_slice(alloc, sink.taken())?))
}

/// Whether this is the status, and this was printed.
fn is(found: &(u8, Vec<u8>), answer: Answer<'_>) -> bool {
    let (status, printed) = found;
    let (wanted, report) = answer;
    *status == wanted && printed.as_slice() == report.as_bytes()
}

/// Whether `check` answers so.
fn does_check(alloc: Global, spec: &str, answer: Answer<'_>) -> Result<bool, AllocError> {
    let found = answered(alloc, &["check", "spec"], spec, "")?;
    Ok(is(&found, answer))
}

/// Whether `judge` answers so to a text of an exchange.
fn does_judge(
    alloc: Global,
    spec: &str,
    events: &str,
    answer: Answer<'_>,
) -> Result<bool, AllocError> {
    let found = answered(alloc, &["judge", "spec", "events"], spec, events)?;
    Ok(is(&found, answer))
}

/// Whether `judge` answers so to an exchange of these lines of events.
fn does_judge_lines(
    alloc: Global,
    spec: &str,
    lines: &str,
    answer: Answer<'_>,
) -> Result<bool, AllocError> {
    let events = repeated(alloc, "exchange 1\n", lines, 1, "end\n")?;
    does_judge(alloc, spec, events.as_str(), answer)
}
