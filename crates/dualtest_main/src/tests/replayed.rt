//! What `replay` answers.

use super::judged::JUDGED;
use super::{Answer, ECHO, PING, TOK, answered, answered_over, is, repeated};
use std::alloc::{AllocError, Global};
use std::test::Fail;

/// Whether `replay` answers so to these texts.
fn does_replay(
    alloc: Global,
    spec: &str,
    events: &str,
    world: &str,
    answer: Answer<'_>,
) -> Result<bool, AllocError> {
    let held = [
        ("spec", spec.as_bytes()),
        ("events", events.as_bytes()),
        ("world", world.as_bytes()),
    ];
    let found = answered_over(alloc, &["replay", "spec", "events", "world"], &held)?;
    Ok(is(&found, answer))
}

/// Whether `replay` answers so to an exchange and a world of these lines.
fn does_replay_lines(
    alloc: Global,
    spec: &str,
    lines: &str,
    world: &str,
    answer: Answer<'_>,
) -> Result<bool, AllocError> {
    let events = repeated(alloc, "exchange 1\n", lines, 1, "end\n")?;
    let world = repeated(alloc, "world 1\n", world, 1, "end\n")?;
    does_replay(alloc, spec, events.as_str(), world.as_str(), answer)
}

/// A message, and the reply to it.
const ONE_ECHO: &str = "0 > \"a\"\n0 < \"a\"\n";

/// A token is asked for, and another client asks for it before it is seen.
const TOKENS: &str = "0 > \"new\"\n1 > \"is 0a1b2c\"\n1 < \"yes\"\n0 < \"id 0a1b2c\"\n";

/// A specification, the lines of events, those of the world, and what is answered.
const REPLAYED: [(&str, &str, &str, Answer<'_>); 12] = [
    (ECHO, "", "", (0, "REPLAYED\nevents 0\n")),
    (
        ECHO,
        ONE_ECHO,
        "0 > \"a\"\ntake 0 \"a\"\nsend 0 \"a\"\n0 < \"a\"\n",
        (0, "REPLAYED\nevents 2\n"),
    ),
    // The server takes what was not sent yet.
    (
        ECHO,
        ONE_ECHO,
        "take 0 \"a\"\n0 > \"a\"\nsend 0 \"a\"\n0 < \"a\"\n",
        (11, "NOT LEGAL 1\n"),
    ),
    // The server answers what it does not answer.
    (
        ECHO,
        ONE_ECHO,
        "0 > \"a\"\ntake 0 \"a\"\nsend 0 \"b\"\n0 < \"b\"\n",
        (11, "NOT SERVER 3\n"),
    ),
    // The world lacks an event of the exchange, has one more, and has another one.
    (
        ECHO,
        ONE_ECHO,
        "0 > \"a\"\ntake 0 \"a\"\nsend 0 \"a\"\n",
        (11, "NOT EXCHANGE 2\n"),
    ),
    (
        ECHO,
        ONE_ECHO,
        "0 > \"a\"\ntake 0 \"a\"\nsend 0 \"a\"\n0 < \"a\"\n1 > \"c\"\n",
        (11, "NOT EXCHANGE 3\n"),
    ),
    (ECHO, ONE_ECHO, "0 > \"c\"\n", (11, "NOT EXCHANGE 1\n")),
    // Whether the world is legal is asked first, then whether the server's events are a run.
    (
        ECHO,
        ONE_ECHO,
        "send 0 \"c\"\n0 < \"a\"\n",
        (11, "NOT LEGAL 2\n"),
    ),
    (ECHO, ONE_ECHO, "1 > \"c\"\narm 0\n", (11, "NOT SERVER 2\n")),
    // A pick is bound by a test before it is seen.
    (
        TOK,
        TOKENS,
        "0 > \"new\"\n1 > \"is 0a1b2c\"\ntake 0 \"new\"\npick \"0a1b2c\"\nsend 0 \"id 0a1b2c\"\ntake 1 \"is 0a1b2c\"\ntest yes\nsend 1 \"yes\"\n1 < \"yes\"\n0 < \"id 0a1b2c\"\n",
        (0, "REPLAYED\nevents 4\n"),
    ),
    // The other pick is a step, and the send behind it is none.
    (
        TOK,
        TOKENS,
        "0 > \"new\"\n1 > \"is 0a1b2c\"\ntake 0 \"new\"\npick \"0a1b2d\"\nsend 0 \"id 0a1b2c\"\ntake 1 \"is 0a1b2c\"\ntest yes\nsend 1 \"yes\"\n1 < \"yes\"\n0 < \"id 0a1b2c\"\n",
        (11, "NOT SERVER 5\n"),
    ),
    (PING, "0 garbles\n", "0 garbles\n", (11, "NOT LEGAL 1\n")),
];

#[test]
fn worlds_are_replayed(rt: HostRuntime) -> Result<(), Fail> {
    for (spec, lines, world, answer) in REPLAYED {
        assert!(rt;
            does_replay_lines(rt.alloc(), spec, lines, world, answer)?,
            "{world}"
        );
    }
    Ok(())
}

/// A text of an exchange and one of a world of which one is refused, and what is told of it.
const REFUSED: [(&str, &str, &str); 4] = [
    ("exchange 1\n", "world 2\n", "file 2 text 2 line 2\n"),
    ("exchange 1\nend\n", "", "file 3 text 2 line 1\n"),
    (
        "exchange 1\nend\n",
        "world 1\ntake 2 \"a\"\nend\n",
        "file 3 text 1 line 2\n",
    ),
    (
        "exchange 1\nend\n",
        "world 1\ntest maybe\nend\n",
        "file 3 text 1 line 2\n",
    ),
];

#[test]
fn texts_are_refused_by_their_file_and_line(rt: HostRuntime) -> Result<(), Fail> {
    for (events, world, report) in REFUSED {
        assert!(rt;
            does_replay(rt.alloc(), ECHO, events, world, (6, report))?,
            "{world}"
        );
    }
    Ok(())
}

/// Whether the world that `judge` prints explains the exchange, where it prints one.
fn is_explained_by_its_world(alloc: Global, spec: &str, lines: &str) -> Result<bool, Fail> {
    let events = repeated(alloc, "exchange 1\n", lines, 1, "end\n")?;
    let (status, printed) = answered(alloc, &["judge", "spec", "events"], spec, events.as_str())?;
    if status != 0 {
        return Ok(true);
    }
    let report = String::from_utf8(printed).ok().ok_or("no text")?;
    let (_, behind) = report.as_str().split_once('\n').ok_or("one line")?;
    let (count, world) = behind.split_once('\n').ok_or("two lines")?;
    let replayed = format!(in alloc; "REPLAYED\n{count}\n")?;
    Ok(does_replay(alloc, spec, events.as_str(), world, (0, replayed.as_str()))?)
}

#[test]
fn printed_worlds_explain(rt: HostRuntime) -> Result<(), Fail> {
    for (spec, lines, _) in JUDGED {
        assert!(rt;
            is_explained_by_its_world(rt.alloc(), spec, lines)?,
            "{lines}"
        );
    }
    Ok(())
}
