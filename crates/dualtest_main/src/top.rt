//! The calls of the program.

ghost use Rattle.std.specs.Prelude.{◌≡◌, [], map, string_bytes};
ghost use Rattle.dualtest_main.specs.Headline.{Headline, IsOnlyDue, ReplayHeadline, ScriptHeadline};
ghost use Rattle.dualtest_main.specs.Outcome.{IsAnswered};

use crate::answer::Answer;
use crate::due::due;
use crate::status::Status;
use dt_ports::dialer::Dialer;
use dt_ports::end::End;
use dt_ports::entry::Entry;
use dt_ports::files::Files;
use dt_ports::sink::{Sink, write_all};
use std::alloc::Global;
use std::net::Net;
use std::rt::Clock;
use std::sync::Wait;
use std::thread::Threads;

/// What a call leaves: its status, the exchange that was recorded, how each connection ended, and the links.
#[derive(Drop)]
pub struct Finish<L> {
    pub status: Status,
    /// What clients sent and received, in the order in which it was recorded.
    pub exchange: Vec<Entry>,
    /// The number of each connection, and how it ended.
    pub ends: Vec<(u32, End)>,
    /// The link of each connection.
    pub links: Vec<L>,
}

/// Does what the words ask for, and writes the report to the sink. The commands of today are `check SPEC`, `judge SPEC EXCHANGE`,
/// `replay SPEC EXCHANGE WORLD` and `script SPEC SEED CONNS STEPS`, which drive no connection: the exchange, the ends and the links are
/// empty, and the dialer is asked for nothing.
///
/// Of told files that hold an accepted specification without a `pick` and an exchange that fits it, and where memory suffices and no
/// read and no write fails, the status of `judge` is Reject at an event exactly where some run of the server and some legal order of the
/// network explain the events before it and none explains that event too; otherwise it is Done, and the least world that explains the
/// exchange is printed. And of told files that hold an accepted specification, and an exchange and a world that fit it, the status of
/// `replay` is Done exactly where the world explains the exchange, and otherwise says why it does not, and where that is first seen.
/// `script` prints the script that is made of an accepted specification from the numbers, which are decimal, without sign and leading
/// zeros: a seed of 64 bits, 1 to `CONNS` connections, and `MAX_STEPS` steps at most.
pub fn dualtest<R: Threads + Wait + Net + Clock + Sync, F: Files, S: Sink, D: Dialer>(
    _rt: &R,
    alloc: Global,
    words: &[String],
    files: &mut F,
    sink: &mut S,
    _dialer: &mut D,
) -> Finish<D::Link>
    ensures answered { IsAnswered (map string_bytes words.now)
        (record { told = F.told files.old; counts = F.counts files.old; taken = S.taken sink.old; faults = S.faults sink.old })
        (record { told = F.told files.new; counts = F.counts files.new; taken = S.taken sink.new; faults = S.faults sink.new })
        result.status }
    ensures headline { Headline (map string_bytes words.now)
        (record { told = F.told files.old; counts = F.counts files.old; taken = S.taken sink.old; faults = S.faults sink.old })
        (record { told = F.told files.new; counts = F.counts files.new; taken = S.taken sink.new; faults = S.faults sink.new })
        result.status }
    ensures replayed { ReplayHeadline (map string_bytes words.now) (F.told files.old) result.status }
    ensures scripted { ScriptHeadline (map string_bytes words.now)
        (record { told = F.told files.old; counts = F.counts files.old; taken = S.taken sink.old; faults = S.faults sink.old })
        (record { told = F.told files.new; counts = F.counts files.new; taken = S.taken sink.new; faults = S.faults sink.new })
        result.status }
    ensures only { IsOnlyDue (map string_bytes words.now) (F.told files.old) (F.counts files.old) result.status }
    ensures exchange { result.exchange.items ≡ [] }
    ensures ends { result.ends.items ≡ [] }
    ensures links { result.links.items ≡ [] }
    ensures dialer { _dialer.new ≡ _dialer.old }
{
    Finish {
        status: offline(alloc, words, files, sink),
        exchange: Vec::new(alloc),
        ends: Vec::new(alloc),
        links: Vec::new(alloc),
    }
}

/// As `dualtest`, for the commands that drive no connection.
pub fn offline<F: Files, S: Sink>(
    alloc: Global,
    words: &[String],
    files: &mut F,
    sink: &mut S,
) -> Status
    ensures answered { IsAnswered (map string_bytes words.now)
        (record { told = F.told files.old; counts = F.counts files.old; taken = S.taken sink.old; faults = S.faults sink.old })
        (record { told = F.told files.new; counts = F.counts files.new; taken = S.taken sink.new; faults = S.faults sink.new })
        result }
    ensures headline { Headline (map string_bytes words.now)
        (record { told = F.told files.old; counts = F.counts files.old; taken = S.taken sink.old; faults = S.faults sink.old })
        (record { told = F.told files.new; counts = F.counts files.new; taken = S.taken sink.new; faults = S.faults sink.new })
        result }
    ensures replayed { ReplayHeadline (map string_bytes words.now) (F.told files.old) result }
    ensures scripted { ScriptHeadline (map string_bytes words.now)
        (record { told = F.told files.old; counts = F.counts files.old; taken = S.taken sink.old; faults = S.faults sink.old })
        (record { told = F.told files.new; counts = F.counts files.new; taken = S.taken sink.new; faults = S.faults sink.new })
        result }
    ensures only { IsOnlyDue (map string_bytes words.now) (F.told files.old) (F.counts files.old) result }
{
    let Ok(Answer { status, report }) = due(alloc, words, files) else {
        return Status::Memory;
    };
    match write_all(sink, &report) {
        Ok(()) => status,
        Err(_) => Status::WriteFault,
    }
}
