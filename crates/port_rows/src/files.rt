//! Files in memory.

use anyhow::{Result, bail};
use dt_ports::files::Files;
use dt_ports::mem_files::MemFiles;
use spec_model::list::Bytes;
use std::alloc::Global;
use test_rows::{first_word, quoted, text_of};

/// A file that is to be held.
#[derive(Drop)]
struct HeldFile {
    name: String,
    bytes: Bytes,
}

/// The file of this name and of the bytes between these quotes.
fn held(alloc: Global, name: &str, quotation: &str) -> Result<HeldFile> {
    Ok(HeldFile {
        name: String::from_str(alloc, name)?,
        bytes: text_of(alloc, quotation)?,
    })
}

/// Files, by `NAME="bytes"` for each of them, and `!N` for the number of each read that fails.
pub fn begin(alloc: Global, made_of: &str) -> Result<MemFiles> {
    let mut files = Vec::new(alloc);
    let mut failing = Vec::new(alloc);
    for word in made_of.split_whitespace() {
        match (word.split_once('='), word.strip_prefix('!')) {
            (Some((name, quotation)), _) => files.push(held(alloc, name, quotation)?)?,
            (None, Some(number)) => failing.push(number.parse()?)?,
            (None, None) => bail!("no file"),
        }
    }
    holding(alloc, &files, &failing)
}

/// These files in memory.
fn holding(alloc: Global, files: &[HeldFile], failing: &[u64]) -> Result<MemFiles> {
    let mut named = Vec::with_capacity(alloc, files.len())?;
    for file in files {
        named.push((file.name.as_str(), file.bytes.as_slice()))?;
    }
    Ok(MemFiles::new(alloc, &named, failing)?)
}

/// The bytes that a read gives within a limit, or why it gives none.
fn read(alloc: Global, files: &mut MemFiles, name: &str, limit: usize) -> Result<String> {
    match files.read(alloc, name, limit) {
        Ok(bytes) => quoted(alloc, &bytes),
        Err(fault) => Ok(format!(in alloc; "{fault:?}")?),
    }
}

/// What is kept of the reads: how many there were, failed and were too long, each of the last two with the limit of the last.
fn counts(alloc: Global, files: &MemFiles) -> Result<String> {
    let counts = files.counts();
    let reads = counts.reads.get();
    let faults = counts.faults.get();
    let too_longs = counts.too_longs.get();
    let (last_failed, last_too_long) = (counts.last_failed, counts.last_too_long);
    Ok(format!(in alloc;
        "{reads} reads, {faults} failed {last_failed:?}, {too_longs} too long {last_too_long:?}"
    )?)
}

/// Reads the file of a name within a limit, or tells the `counts`.
pub fn answer(alloc: Global, files: &mut MemFiles, step: &str) -> Result<String> {
    let (verb, rest) = first_word(step);
    match verb {
        "read" => {
            let (name, limit) = first_word(rest);
            read(alloc, files, name, limit.parse()?)
        }
        "counts" => counts(alloc, files),
        _ => bail!("no step"),
    }
}
