//! Files that are read whole.

ghost use Rattle.std.specs.Prelude.{◌≡◌, ◌≤◌, ℕ, List, Option, length, IfErr, IfOk, IfSome};
ghost use Rattle.dt_ports.specs.declared.files.FileCounts.{FileCounts};
ghost use Rattle.dt_ports.specs.declared.files.FileFault.TheVariants.{Memory};
ghost use Rattle.dt_ports.specs.Files.{bytes_of, counts_after_read, no_reads, MayFault};

use crate::count::Count;
use std::alloc::{AllocError, Global};

/// Why a read gave no bytes.
#[derive(Clone, Copy, Debug, PartialEq, Eq)]
pub enum FileFault {
    /// The file could not be read.
    Failed,
    /// The file has more bytes than the limit.
    TooLong,
    /// Want of memory.
    Memory,
}

impl From<AllocError> for FileFault {
    ghost from_gives = { λ _ fault. fault ≡ Memory };

    fn from(_error: AllocError) -> FileFault {
        FileFault::Memory
    }
}

/// What files keep of the reads that they were asked for.
#[derive(Clone, Copy, Debug, PartialEq, Eq)]
pub struct FileCounts {
    /// How many reads there were.
    pub reads: Count,
    /// How many reads answered Failed.
    pub faults: Count,
    /// How many reads answered TooLong.
    pub too_longs: Count,
    /// The limit of the last read that answered Failed.
    pub last_failed: Option<usize>,
    /// The limit of the last read that answered TooLong.
    pub last_too_long: Option<usize>,
}

impl FileCounts {
    /// What is kept before any read.
    pub fn new() -> FileCounts
        ensures { result ≡ no_reads }
    {
        FileCounts {
            reads: Count::new(),
            faults: Count::new(),
            too_longs: Count::new(),
            last_failed: None,
            last_too_long: None,
        }
    }

    /// Keeps that there was one more read, within this limit, and why it gave no bytes where it failed or the file was too long.
    pub fn note(&mut self, limit: usize, answer: &Result<Vec<u8>, FileFault>)
        ensures { self.new ≡ counts_after_read limit answer.now self.old }
    {
        self.reads.raise();
        match answer {
            Err(FileFault::Failed) => {
                self.faults.raise();
                self.last_failed = Some(limit);
            }
            Err(FileFault::TooLong) => {
                self.too_longs.raise();
                self.last_too_long = Some(limit);
            }
            Ok(_) | Err(FileFault::Memory) => {}
        }
    }
}

/// Files that are read whole, by name.
///
/// A caller learns why a read gave no bytes from what the files keep: each read raises the count of reads by one, each
/// Failed and each TooLong its own, and the limit of the last of each is kept. Nothing else changes what is kept, so no
/// count ever falls.
///
/// An adapter over the system's files keeps a `FileCounts` and notes each read there. It tells nothing (its `told` is
/// `None`), so it owes nothing of which bytes it gives, only that they are at most `limit`: it reads until the end, or
/// until one byte more than the limit came, which is TooLong.
pub trait Files {
    /// The names and the bytes of the files, where they are told. Of a name that stands twice the first counts.
    ghost told: { Self → Option (List (List ℕ × List ℕ)) };

    /// What is kept of the reads.
    ghost counts: { Self → FileCounts };

    /// The bytes of the file of this name, all of them, where there are at most `limit`.
    fn read(&mut self, alloc: Global, name: &str, limit: usize) -> Result<Vec<u8>, FileFault>
        // No read changes what is told.
        ensures told { told self.new ≡ told self.old }

        ensures within { IfOk result (λ bytes. length bytes.items ≤ limit) }

        // Where the files tell, the bytes are those told of this name. A read that does not fail is TooLong exactly
        // where they are more than the limit, and of a name that is not told each read fails.
        ensures bytes { IfOk result (λ bytes.
            IfSome (told self.old) (λ files. bytes_of files name.now ≡ Some bytes.items)) }
        ensures fault { IfErr result (λ fault.
            IfSome (told self.old) (λ files. MayFault (bytes_of files name.now) limit fault)) }

        // The read is counted; so are Failed and TooLong, each with its limit.
        ensures counted { counts self.new ≡ counts_after_read limit result (counts self.old) };
}
