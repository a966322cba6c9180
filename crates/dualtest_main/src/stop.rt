//! Why a command ends before its work is done.

ghost use Rattle.std.specs.Prelude.{◌≡◌};
ghost use Rattle.dualtest_main.specs.declared.stop.Stop.TheVariants.{Memory};
ghost use Rattle.dualtest_main.specs.Report.{text_fault_number};

use spec_rules::fault::Fault;
use std::alloc::AllocError;

/// What is wrong with a text of lines.
#[derive(Clone, Copy, Debug, PartialEq, Eq)]
pub enum TextFault {
    /// A line is not of the form for its place, or bytes stand behind the last one.
    BadLine,
    /// A line is not ended.
    NoEnd,
    /// The greatest number of events was read, and the next line is not `end`.
    Limit,
}

impl TextFault {
    /// The number by which reports name the fault.
    pub fn number(self) -> u8
        ensures { result ≡ text_fault_number self }
    {
        match self {
            TextFault::BadLine => 1,
            TextFault::NoEnd => 2,
            TextFault::Limit => 3,
        }
    }
}

/// Why a command ends before its work is done. Files are numbered from 1 in the order of the words.
#[derive(Clone, Copy, Debug, PartialEq, Eq)]
pub enum Stop {
    /// The file could not be read.
    ReadFault(u8),
    /// The file is longer than its limit.
    TooLong(u8),
    /// The text of the specification is refused at this byte.
    Syntax(usize),
    /// This is the first that is wrong with the specification, at this byte of its text.
    Bad(Fault, usize),
    /// The text of the file is refused so, at this line.
    Text(u8, TextFault, usize),
    /// What the file holds is not judged yet.
    Unbuilt(u8),
    /// Want of memory.
    Memory,
}

impl From<AllocError> for Stop {
    ghost from_gives = { λ _ stop. stop ≡ Memory };

    fn from(_error: AllocError) -> Stop {
        Stop::Memory
    }
}
