//! The files of the system.

ghost use Rattle.std.specs.Prelude.{◌≡◌, ◌≤◌, IfOk, None, length};
ghost use Rattle.dt_ports.specs.Files.{no_reads};

use dt_ports::files::{FileCounts, FileFault, Files};
use std::alloc::Global;
use std::fs;
use std::io::{Error, ErrorKind, Read};

/// The files of the system. They tell nothing, so nothing is proved of the bytes that they give but that these are within the limit.
#[derive(Drop)]
pub struct StdFiles<'a, R> {
    rt: &'a R,
    counts: FileCounts,
}

impl<'a, R: std::rt::Files> StdFiles<'a, R> {
    /// The files, of which none was read.
    pub fn new(rt: &'a R) -> StdFiles<'a, R>
        ensures { result.counts ≡ no_reads }
    {
        StdFiles {
            rt,
            counts: FileCounts::new(),
        }
    }
}

impl<R: std::rt::Files> Files for StdFiles<'_, R> {
    ghost told = { λ _. None };

    ghost counts = { λ files. files.counts };

    fn read(&mut self, alloc: Global, name: &str, limit: usize) -> Result<Vec<u8>, FileFault> {
        let answer = contents(self.rt, alloc, name, limit);
        self.counts.note(limit, &answer);
        answer
    }
}

/// All bytes of a file. A file that never ends is longer than the limit.
fn contents<R: std::rt::Files>(
    rt: &R,
    alloc: Global,
    name: &str,
    limit: usize,
) -> Result<Vec<u8>, FileFault>
    ensures { IfOk result (λ bytes. length bytes.items ≤ limit) }
{
    let mut file = fs::open(rt, name).map_err(fault_of)?;
    let mut bytes = Vec::new(alloc);
    let mut room = [0; 4096];
    for _ in 0..u64::MAX {
        let count = file.read(&mut room).map_err(fault_of)?;
        if count == 0 {
            return Ok(bytes);
        }
        if limit - bytes.len() < count {
            return Err(FileFault::TooLong);
        }
        bytes.extend_from_slice(&room[..count])?;
    }
    Err(FileFault::TooLong)
}

/// Why a call of the system gave nothing.
fn fault_of(error: Error) -> FileFault {
    match error.kind() {
        ErrorKind::OutOfMemory => FileFault::Memory,
        _ => FileFault::Failed,
    }
}
