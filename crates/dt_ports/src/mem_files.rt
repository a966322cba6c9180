//! Files in memory.

ghost use Rattle.std.specs.Prelude.{◌≡◌, ◌≤◌, ◌↔◌, ◌⊎◌, List, None, Option, Some, length, map, string_bytes, bytes_eq, find, option_copied, Contains, IfOk, IfErr, IsErrOf};
ghost use Rattle.dt_ports.specs.Count.{next_count};
ghost use Rattle.dt_ports.specs.Files.{bytes_of, counts_after_read, no_reads, MayFault};
ghost use Rattle.dt_ports.specs.MemFiles.{named_bytes};

use crate::count::Count;
use crate::failing::FailingCalls;
use crate::files::{FileCounts, FileFault, Files};
use spec_model::Memory;
use spec_model::list::{Bytes, List};
use std::alloc::Global;
use std::marker::Model;

/// A file in memory, with its name.
#[derive(Debug, Drop)]
pub(crate) struct MemFile {
    name: String,
    bytes: Bytes,
}

/// Files in memory. They tell all that they hold.
#[derive(Debug, Drop)]
pub struct MemFiles {
    files: Vec<MemFile>,
    failing: FailingCalls,
    counts: FileCounts,
}

impl Model for MemFiles {
    ghost use Rattle.std.specs.Prelude.{map};
    ghost use Rattle.dt_ports.specs.MemFiles.{FilesInMemory, named_bytes};

    ghost Value = { FilesInMemory };

    ghost view = { λ mem. record {
      files = map named_bytes mem.files.items;
      failing = mem.failing.numbers.items;
      made = mem.failing.made;
      counts = mem.counts;
    } };
}

impl MemFiles {
    /// Files of these names and bytes. Of a name that stands twice the first counts. Reads are numbered from 1, and
    /// those of the numbers in `failing` fail. The room for all of it is taken here.
    pub fn new(alloc: Global, files: &[(&str, &[u8])], failing: &[u64]) -> Result<MemFiles, Memory>
        ensures { IfOk result (λ mem. mem ≡ record {
          files = map (λ file. (file.0.now, file.1.now)) files.now;
          failing = failing.now;
          made = 0;
          counts = no_reads;
        }) }
    {
        let mut held = Vec::with_capacity(alloc, files.len())?;
        for (name, bytes) in files {
            held.push(MemFile {
                name: String::from_str(alloc, name)?,
                bytes: List::from_vec(bytes.to_vec(alloc)?),
            })?;
        }
        Ok(MemFiles {
            files: held,
            failing: FailingCalls {
                numbers: failing.to_vec(alloc)?,
                made: Count::new(),
            },
            counts: FileCounts::new(),
        })
    }

    /// What is kept of the reads.
    pub fn counts(&self) -> FileCounts
        ensures { result ≡ self.now.counts }
    {
        self.counts
    }
}

/// The first file of a name.
fn first_named<'a>(files: &'a [MemFile], name: &str) -> Option<&'a MemFile>
    ensures { option_copied result ≡ find (λ file. bytes_eq (string_bytes file.name) name.now) files.now }
{
    files.iter().find(|file| file.name.as_str() == name)
}

/// The bytes held of a name.
fn bytes_named<'a>(files: &'a [MemFile], name: &str) -> Option<&'a Bytes>
    ensures { option_copied result ≡ bytes_of (map named_bytes files.now) name.now }
{
    let file = first_named(files, name)?;
    Some(&file.bytes)
}

/// A copy of the first file of a name, where it is within the limit.
fn copy_of(alloc: Global, files: &[MemFile], name: &str, limit: usize) -> Result<Vec<u8>, FileFault>
    ensures bytes { IfOk result (λ bytes. bytes_of (map named_bytes files.now) name.now ≡ Some bytes.items) }
    ensures within { IfOk result (λ bytes. length bytes.items ≤ limit) }
    ensures fault { IfErr result (MayFault (bytes_of (map named_bytes files.now) name.now) limit) }
    ensures failed { IsErrOf result FileFault.Failed ↔ (bytes_of (map named_bytes files.now) name.now ≡ None) }
{
    let bytes = bytes_named(files, name).ok_or(FileFault::Failed)?;
    if bytes.len() > limit {
        return Err(FileFault::TooLong);
    }
    Ok(bytes.as_slice().to_vec(alloc)?)
}

impl MemFiles {
    /// The answer to the next read, which is yet to be kept.
    fn answer(&mut self, alloc: Global, name: &str, limit: usize) -> Result<Vec<u8>, FileFault>
        ensures bytes { IfOk result (λ bytes. bytes_of self.old.files name.now ≡ Some bytes.items) }
        ensures within { IfOk result (λ bytes. length bytes.items ≤ limit) }
        ensures fault { IfErr result (MayFault (bytes_of self.old.files name.now) limit) }
        ensures failed { IsErrOf result FileFault.Failed
            ↔ (Contains self.old.failing (next_count self.old.made) ⊎ (bytes_of self.old.files name.now ≡ None)) }
        ensures after { self.new ≡ record self.old { made = next_count self.old.made } }
    {
        if self.failing.next_fails() {
            return Err(FileFault::Failed);
        }
        copy_of(alloc, self.files.as_slice(), name, limit)
    }
}

impl Files for MemFiles {
    ghost told = { λ mem. Some mem.files };

    ghost counts = { λ mem. mem.counts };

    fn read(&mut self, alloc: Global, name: &str, limit: usize) -> Result<Vec<u8>, FileFault>
        ensures bytes { IfOk result (λ bytes. bytes_of self.old.files name.now ≡ Some bytes.items) }
        ensures within { IfOk result (λ bytes. length bytes.items ≤ limit) }
        ensures fault { IfErr result (MayFault (bytes_of self.old.files name.now) limit) }

        // It fails exactly where it is one of the reads that fail, or no file of this name is held.
        ensures failed { IsErrOf result FileFault.Failed
            ↔ (Contains self.old.failing (next_count self.old.made) ⊎ (bytes_of self.old.files name.now ≡ None)) }
        ensures after { self.new ≡ record self.old {
          made = next_count self.old.made;
          counts = counts_after_read limit result self.old.counts;
        } }
    {
        let answer = self.answer(alloc, name, limit);
        self.counts.note(limit, &answer);
        answer
    }
}
