//! The limits of specifications: what is accepted at each, and refused past it.

use super::{Answer, answered, does_check, repeated};
use std::alloc::{AllocError, Global};
use std::fmt::Write;
use std::test::Fail;

/// Whether `check` accepts a specification.
fn accepts(alloc: Global, spec: &str) -> Result<bool, AllocError> {
    let (status, _) = answered(alloc, &["check", "spec"], spec, "")?;
    Ok(status == 0)
}

/// Whether the first specification is accepted, and the fault of the second is told so.
fn parts(alloc: Global, within: &str, past: &str, report: &str) -> Result<bool, AllocError> {
    Ok(accepts(alloc, within)? && does_check(alloc, past, (5, report))?)
}

/// A text in three pieces, the greatest number of times that its second piece may stand there, and what is told where it stands once
/// more.
const LIMITS: [([&str; 3], usize, &str); 9] = [
    // Statements.
    (
        [
            "frame line 9 conns 1 loop { recv c { other m { ",
            "send c m ",
            "} } }",
        ],
        1023,
        "check 8 limit 6 at 9254\n",
    ),
    // Cases of a `recv`.
    (
        [
            "frame line 9 conns 1 loop { recv c { ",
            "case \"a\" { } ",
            "other m { } } }",
        ],
        63,
        "check 8 limit 7 at 28\n",
    ),
    // Items of a pattern.
    (
        [
            "frame line 9 conns 1 loop { recv c { case ",
            "\"a\" ",
            "{ } other m { } } }",
        ],
        16,
        "check 8 limit 8 at 28\n",
    ),
    // Parts of a `send`.
    (
        [
            "frame line 9 conns 1 loop { recv c { other m { send c ",
            "m ",
            "} } }",
        ],
        16,
        "check 8 limit 9 at 47\n",
    ),
    // Arms of an `either`.
    (
        [
            "frame line 9 conns 1 loop { recv c { other m { either { } ",
            "or { } ",
            "} } }",
        ],
        15,
        "check 8 limit 10 at 47\n",
    ),
    // Bytes of a text that is sent, of one in a register, and of one in a pattern.
    (
        [
            "frame line 9 conns 1 loop { recv c { other m { send c \"",
            "a",
            "\" } } }",
        ],
        4096,
        "check 8 limit 11 at 47\n",
    ),
    (
        [
            "frame line 9 conns 1 text r = \"",
            "a",
            "\" loop { recv c { other m { } } }",
        ],
        4096,
        "check 8 limit 11 at 21\n",
    ),
    (
        [
            "frame line 9 conns 1 loop { recv c { case \"",
            "a",
            "\" { } other m { } } }",
        ],
        4096,
        "check 8 limit 11 at 28\n",
    ),
    // Statements that compare.
    (
        [
            "frame line 9 conns 1 loop { recv c { other m { ",
            "where m == m ",
            "} } }",
        ],
        15,
        "check 7 at 28\n",
    ),
];

#[test]
fn one_more_is_past_the_limit(rt: HostRuntime) -> Result<(), Fail> {
    let alloc = rt.alloc();
    for ([front, piece, end], greatest, report) in LIMITS {
        let within = repeated(alloc, front, piece, greatest, end)?;
        let past = repeated(alloc, front, piece, greatest + 1, end)?;
        assert!(rt;
            parts(alloc, within.as_str(), past.as_str(), report)?,
            "{front}"
        );
    }
    Ok(())
}

#[test]
fn what_is_at_a_limit_is_accepted(rt: HostRuntime) -> Result<(), Fail> {
    let alloc = rt.alloc();
    // The greatest message, connections and written connection; the longest pick.
    let greatest = "frame line 4096 conns 16 conn k = 15 loop { recv c { other m { send 15 m } } }";
    let longest = "frame len16 1 conns 1 loop { recv c { other m { pick t 32 any } } }";
    assert!(rt; accepts(alloc, greatest)? && accepts(alloc, longest)?);
    Ok(())
}

/// So many declarations, of names of two digits.
fn declared(alloc: Global, before: &str, behind: &str, count: usize) -> Result<String, AllocError> {
    let mut text = String::from_str(alloc, "frame line 9 conns 1 ")?;
    for number in 10..count.saturating_add(10) {
        write!(text, "{before}{number}{behind}").map_err(|_| AllocError)?;
    }
    text.push_str("loop { recv c { other m { } } }")?;
    Ok(text)
}

/// A declaration before and behind its number, how many there may be, and what is told of one more: 64 declarations of 12 bytes and 8
/// of 10 bytes stand behind 21 bytes of the header.
const DECLARED: [(&str, &str, usize, &str); 2] = [
    ("num r", " = 0 ", 64, "check 8 limit 4 at 789\n"),
    ("table t", " ", 8, "check 8 limit 5 at 101\n"),
];

#[test]
fn registers_and_tables_are_counted_apart(rt: HostRuntime) -> Result<(), Fail> {
    let alloc = rt.alloc();
    for (before, behind, greatest, report) in DECLARED {
        let within = declared(alloc, before, behind, greatest)?;
        let past = declared(alloc, before, behind, greatest + 1)?;
        assert!(rt;
            parts(alloc, within.as_str(), past.as_str(), report)?,
            "{before}"
        );
    }
    Ok(())
}

/// How many blanks there are, and what is answered.
const BLANKS: [(usize, Answer<'_>); 2] = [
    (65_536, (4, "syntax at 65536\n")),
    (65_537, (12, "file 1 too long\n")),
];

#[test]
fn a_text_past_65_536_bytes_is_too_long(rt: HostRuntime) -> Result<(), Fail> {
    let alloc = rt.alloc();
    for (count, answer) in BLANKS {
        let blanks = repeated(alloc, "", " ", count, "")?;
        assert!(rt; does_check(alloc, blanks.as_str(), answer)?, "{count}");
    }
    Ok(())
}
