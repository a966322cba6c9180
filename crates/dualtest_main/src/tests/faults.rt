//! What is answered where the words, the files or the output are at fault.

use super::{Answer, ECHO, PING, USAGE, strings};
use crate::status::Status;
use crate::top::{dualtest, offline};
use dt_ports::mem_dialer::MemDialer;
use dt_ports::mem_files::MemFiles;
use dt_ports::mem_sink::MemSink;
use std::alloc::{AllocError, Global};
use std::test::Fail;

/// Words that are those of no command.
const OTHER_WORDS: [&[&str]; 16] = [
    &[],
    &["check"],
    &["check", ""],
    &["check", "a", "b"],
    &["judge", "a"],
    &["judge", "", "b"],
    &["judge", "a", ""],
    &["judge", "a", "b", "c"],
    &["replay", "a", "b"],
    &["replay", "a", "b", ""],
    &["replay", "a", "b", "c", "d"],
    &["script", "a", "1", "1"],
    &["script", "", "1", "1", "0"],
    &["script", "a", "1", "17", "0"],
    &["script", "a", "1", "1", "0", "0"],
    &["Check", "a"],
];

#[test]
fn other_words_print_the_usage(rt: HostRuntime) -> Result<(), Fail> {
    let alloc = rt.alloc();
    for row in OTHER_WORDS {
        let words = strings(alloc, row)?;
        let mut files = MemFiles::new(alloc, &[], &[])?;
        let mut sink = MemSink::new(alloc, 200)?;
        let mut dialer = MemDialer::without_links(alloc, 0)?;
        let finish = dualtest(&rt, alloc, &words, &mut files, &mut sink, &mut dialer);
        assert!(rt; finish.status == Status::Usage && sink.taken() == USAGE.as_bytes());
        assert!(rt; files.counts().reads.get() == 0);
        assert!(rt;
            finish.exchange.is_empty() && finish.ends.is_empty() && finish.links.is_empty()
        );
    }
    Ok(())
}

/// The words, the number of the read that fails, what is answered, and how many reads there were.
const READS: [(&[&str], u64, Answer<'_>, u64); 9] = [
    (&["check", "spec"], 1, (7, "file 1 read fault\n"), 1),
    (
        &["judge", "spec", "events"],
        1,
        (7, "file 1 read fault\n"),
        1,
    ),
    (
        &["judge", "spec", "events"],
        2,
        (7, "file 2 read fault\n"),
        2,
    ),
    (&["judge", "spec", "none"], 9, (7, "file 2 read fault\n"), 2),
    (
        &["judge", "spec", "events"],
        9,
        (0, "ACCEPT\nevents 0\nworld 1\nend\n"),
        2,
    ),
    (
        &["replay", "spec", "events", "world"],
        3,
        (7, "file 3 read fault\n"),
        3,
    ),
    (
        &["replay", "spec", "events", "world"],
        9,
        (0, "REPLAYED\nevents 0\n"),
        3,
    ),
    (
        &["script", "spec", "1", "1", "0"],
        1,
        (7, "file 1 read fault\n"),
        1,
    ),
    (
        &["script", "spec", "1", "1", "0"],
        9,
        (0, "script 1\nconns 1\nend\n"),
        1,
    ),
];

/// Whether these words are answered so, after so many reads, where this read fails.
fn is_answered(
    alloc: Global,
    words: &[&str],
    failing: u64,
    answer: Answer<'_>,
    reads: u64,
) -> Result<bool, AllocError> {
    let words = strings(alloc, words)?;
    let held = [
        ("spec", ECHO.as_bytes()),
        ("events", b"exchange 1\nend\n".as_slice()),
        ("world", b"world 1\nend\n".as_slice()),
    ];
    let mut files = MemFiles::new(alloc, &held, &[failing])?;
    let mut sink = MemSink::new(alloc, 100)?;
    let status = offline(alloc, &words, &mut files, &mut sink);
    let (wanted, report) = answer;
    Ok(
        status.number() == wanted
            && sink.taken() == report.as_bytes()
            && files.counts().reads.get() == reads,
    )
}

#[test]
fn a_failed_read_is_told_by_its_file(rt: HostRuntime) -> Result<(), Fail> {
    for (words, failing, answer, reads) in READS {
        assert!(rt;
            is_answered(rt.alloc(), words, failing, answer, reads)?,
            "{failing}"
        );
    }
    Ok(())
}

#[test]
fn a_failed_write_ends_the_report(rt: HostRuntime) -> Result<(), Fail> {
    let alloc = rt.alloc();
    let words = strings(alloc, &["judge", "spec", "events"])?;
    let events = b"exchange 1\n0 > \"ping\"\n0 < \"busy\"\nend\n";
    let held = [("spec", PING.as_bytes()), ("events", events.as_slice())];
    let mut files = MemFiles::new(alloc, &held, &[])?;
    let mut sink = MemSink::new(alloc, 10)?;
    let answer = offline(alloc, &words, &mut files, &mut sink);
    assert!(rt;
        answer == Status::WriteFault
            && sink.taken() == b"ACCEPT\neve".as_slice()
            && sink.faults() == 1
    );
    Ok(())
}
