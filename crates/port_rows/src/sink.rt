//! An output in memory.

use anyhow::{Result, bail};
use dt_ports::mem_sink::MemSink;
use dt_ports::sink::{Sink, write_all};
use std::alloc::Global;
use test_rows::{first_word, quoted, text_of};

/// What a write of one piece answers.
fn write(alloc: Global, sink: &mut MemSink, piece: &[u8]) -> Result<String> {
    if piece.is_empty() {
        bail!("no bytes to write");
    }
    let answer = sink.write(piece);
    Ok(format!(in alloc; "{answer:?}")?)
}

/// What the writing of all of the bytes answers.
fn write_whole(alloc: Global, sink: &mut MemSink, bytes: &[u8]) -> Result<String> {
    let answer = write_all(sink, bytes);
    Ok(format!(in alloc; "{answer:?}")?)
}

/// Writes a piece by `write`, or bytes by `all`; or tells what was `taken`, and how many `faults` there were.
pub fn answer(alloc: Global, sink: &mut MemSink, step: &str) -> Result<String> {
    let (verb, text) = first_word(step);
    match verb {
        "write" => write(alloc, sink, text_of(alloc, text)?.as_slice()),
        "all" => write_whole(alloc, sink, text_of(alloc, text)?.as_slice()),
        "taken" => quoted(alloc, sink.taken()),
        "faults" => Ok(format!(in alloc; "{}", sink.faults())?),
        _ => bail!("no step"),
    }
}
