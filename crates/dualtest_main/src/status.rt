//! How a call ends.

ghost use Rattle.std.specs.Prelude.{◌≡◌};
ghost use Rattle.dualtest_main.specs.Report.{status_number};

use crate::replay_fault::ReplayFault;
use crate::stop::TextFault;
use spec_rules::fault::Fault;

/// How a call of the program ends. Files are numbered from 1 in the order of the words, events from 1.
#[derive(Clone, Copy, Debug, PartialEq, Eq)]
pub enum Status {
    /// The exchange is explained, or explained by the world, or the command did its work.
    Done,
    /// The events before this one are explained, and with it they are not.
    Reject(usize),
    /// The words are those of no command.
    Usage,
    /// The text of the first file is that of no specification, and is refused at this byte.
    Syntax(usize),
    /// The specification of the first file is not accepted: this is the first that is wrong with it, at this byte of its text.
    Check(Fault, usize),
    /// The text of the file is refused so, at this line, counted from 1.
    Text(u8, TextFault, usize),
    /// The file could not be read.
    ReadFault(u8),
    /// The report could not be written whole.
    WriteFault,
    /// Want of memory.
    Memory,
    /// The world does not explain the exchange: this is why, and the place, from 1, at which that is first seen.
    NotReplayed(ReplayFault, usize),
    /// The file is longer than its limit.
    FileTooLong(u8),
    /// What the file holds is not judged yet.
    Unbuilt(u8),
}

impl Status {
    /// The number with which the program ends.
    pub fn number(&self) -> u8
        ensures { result ≡ status_number self.now }
    {
        match self {
            Status::Done => 0,
            Status::Reject(_) => 1,
            Status::Usage => 3,
            Status::Syntax(_) => 4,
            Status::Check(_, _) => 5,
            Status::Text(_, _, _) => 6,
            Status::ReadFault(_) => 7,
            Status::WriteFault => 8,
            Status::Memory => 10,
            Status::NotReplayed(_, _) => 11,
            Status::FileTooLong(_) => 12,
            Status::Unbuilt(_) => 13,
        }
    }
}
