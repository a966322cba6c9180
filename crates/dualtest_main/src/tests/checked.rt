//! What `check` answers.

use super::{Answer, ECHO, HI, KV, PING, TOK, answered, does_check, repeated};
use std::alloc::Global;
use std::test::Fail;

#[test]
fn the_canonical_text_is_printed(rt: HostRuntime) -> Result<(), Fail> {
    let canonical = r#"frame line 64
conns 2
loop {
  recv c {
    other m {
      send c m
    }
  }
}
"#;
    assert!(rt; does_check(rt.alloc(), ECHO, (0, canonical))?);
    Ok(())
}

/// Whether `check` prints of what it prints of a specification the same.
fn is_printed_again(alloc: Global, spec: &str) -> Result<bool, Fail> {
    let (_, printed) = answered(alloc, &["check", "spec"], spec, "")?;
    let canonical = String::from_utf8(printed).ok().ok_or("no text")?;
    Ok(does_check(alloc, canonical.as_str(), (0, canonical.as_str()))?)
}

#[test]
fn a_canonical_text_is_printed_as_it_is(rt: HostRuntime) -> Result<(), Fail> {
    for spec in [PING, HI, TOK, KV] {
        assert!(rt; is_printed_again(rt.alloc(), spec)?, "{spec}");
    }
    Ok(())
}

/// Texts that are refused at a byte, and specifications with a fault, which is told by its kind, its limit and the place of its clause.
const REFUSED: [(&str, Answer<'_>); 13] = [
    ("", (4, "syntax at 0\n")),
    ("frame lime 64", (4, "syntax at 8\n")),
    ("frame line 64", (4, "syntax at 13\n")),
    (
        "frame line 64 conns 1 loop { send if x",
        (4, "syntax at 36\n"),
    ),
    // The loop takes nothing first.
    (
        "frame line 64\nconns 2\nloop { send 0 \"x\" }",
        (5, "check 4 at 29\n"),
    ),
    ("frame line 9 conns 1 loop { }", (5, "check 4 at 21\n")),
    // A name is bound twice.
    (
        "frame line 9 conns 1 loop { recv c { other c { } } }",
        (5, "check 2 at 28\n"),
    ),
    // The limits of messages, of connections and of written connections. The first place decides.
    (
        "frame line 0 conns 17 loop { }",
        (5, "check 8 limit 1 at 0\n"),
    ),
    (
        "frame line 4097 conns 1 loop { recv c { other m { } } }",
        (5, "check 8 limit 1 at 0\n"),
    ),
    (
        "frame line 9 conns 17 loop { recv c { other m { } } }",
        (5, "check 8 limit 2 at 13\n"),
    ),
    (
        "frame line 9 conns 0 loop { recv c { other m { } } }",
        (5, "check 8 limit 2 at 13\n"),
    ),
    (
        "frame line 9 conns 2 conn k = 2 loop { recv c { other m { } } }",
        (5, "check 8 limit 3 at 21\n"),
    ),
    // A `recv` stands in `start`.
    (
        "frame line 9 conns 1 start { recv c { other m { } } } loop { recv c { other m { } } }",
        (5, "check 5 at 29\n"),
    ),
];

#[test]
fn texts_are_refused_at_a_place(rt: HostRuntime) -> Result<(), Fail> {
    for (spec, answer) in REFUSED {
        assert!(rt; does_check(rt.alloc(), spec, answer)?, "{spec}");
    }
    Ok(())
}

/// What may stand behind 47 bytes that take a message `m` from `c` of two connections, and which fault it has.
const FAULTS: [(&str, &str); 19] = [
    // A name is not known.
    ("send d m", "check 1 at 47\n"),
    ("either { pick t 6 hex } or { send c t }", "check 1 at 76\n"),
    ("set r 1", "check 1 at 47\n"),
    // A name is bound twice.
    ("recv c { other n { } }", "check 2 at 47\n"),
    (
        "recv d { case a:word \" \" a:num { } other n { } }",
        "check 2 at 47\n",
    ),
    // A value is of a wrong type.
    ("send m m", "check 3 at 47\n"),
    ("send c c", "check 3 at 47\n"),
    ("set m \"\"", "check 3 at 47\n"),
    ("if c < 2 { }", "check 3 at 47\n"),
    ("where m == 1", "check 3 at 47\n"),
    // A pick is too short or too long.
    ("pick t 5 hex", "check 6 at 47\n"),
    ("pick t 33 any", "check 6 at 47\n"),
    // There is no such connection.
    ("send 2 m", "check 8 limit 3 at 47\n"),
    ("where c == 2", "check 8 limit 3 at 47\n"),
    ("if 2 != c { }", "check 8 limit 3 at 47\n"),
    ("recv from 2 { other n { } }", "check 8 limit 3 at 47\n"),
    // Of two faults at one place that of the lower kind is told, of two places the first.
    ("pick m 5 hex", "check 2 at 47\n"),
    ("send x m send m m", "check 1 at 47\n"),
    ("send m m send x m", "check 3 at 47\n"),
];

#[test]
fn faults_are_told_by_the_first_place(rt: HostRuntime) -> Result<(), Fail> {
    let alloc = rt.alloc();
    for (body, report) in FAULTS {
        let front = "frame line 9 conns 2 loop { recv c { other m { ";
        let spec = repeated(alloc, front, body, 1, " } } }")?;
        assert!(rt; does_check(alloc, spec.as_str(), (5, report))?, "{body}");
    }
    Ok(())
}
