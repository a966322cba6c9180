//! What `judge` answers.

use super::{Answer, ECHO, HI, KV, PING, TOK, does_judge, does_judge_lines};
use std::test::Fail;

/// A specification, the lines of events, and what is answered.
pub const JUDGED: [(&str, &str, Answer<'_>); 13] = [
    (
        ECHO,
        "0 > \"a\"\n0 < \"a\"\n",
        (
            0,
            "ACCEPT\nevents 2\nworld 1\n0 > \"a\"\ntake 0 \"a\"\nsend 0 \"a\"\n0 < \"a\"\nend\n",
        ),
    ),
    (
        ECHO,
        "0 < \"a\"\n",
        (1, "REJECT 1\nevents 1\nevent 0 < \"a\"\n"),
    ),
    (
        ECHO,
        "0 > \"a\"\n1 > \"b\"\n1 < \"b\"\n0 < \"a\"\n",
        (
            0,
            "ACCEPT\nevents 4\nworld 1\n0 > \"a\"\n1 > \"b\"\ntake 0 \"a\"\nsend 0 \"a\"\ntake 1 \"b\"\nsend 1 \"b\"\n1 < \"b\"\n0 < \"a\"\nend\n",
        ),
    ),
    (
        ECHO,
        "0 > \"a\"\n0 > \"b\"\n0 < \"b\"\n",
        (1, "REJECT 3\nevents 3\nevent 0 < \"b\"\n"),
    ),
    (
        ECHO,
        "0 > \"a\"\n0 garbles\n0 < \"a\"\n",
        (1, "REJECT 2\nevents 3\nevent 0 garbles\n"),
    ),
    (
        HI,
        "0 < \"hi\"\n",
        (
            0,
            "ACCEPT\nevents 1\nworld 1\nsend 0 \"hi\"\n0 < \"hi\"\nend\n",
        ),
    ),
    (
        HI,
        "0 < \"hi\"\n0 < \"hi\"\n",
        (1, "REJECT 2\nevents 2\nevent 0 < \"hi\"\n"),
    ),
    (
        PING,
        "0 > \"ping\"\n0 < \"busy\"\n",
        (
            0,
            "ACCEPT\nevents 2\nworld 1\n0 > \"ping\"\ntake 0 \"ping\"\narm 1\nsend 0 \"busy\"\n0 < \"busy\"\nend\n",
        ),
    ),
    (PING, "", (0, "ACCEPT\nevents 0\nworld 1\nend\n")),
    (
        PING,
        "0 > \"ping\"\n0 > \"x\"\n0 < \"pong\"\n0 < \"err\"\n",
        (
            0,
            "ACCEPT\nevents 4\nworld 1\n0 > \"ping\"\n0 > \"x\"\ntake 0 \"ping\"\narm 0\nsend 0 \"pong\"\n0 < \"pong\"\ntake 0 \"x\"\nsend 0 \"err\"\n0 < \"err\"\nend\n",
        ),
    ),
    (
        PING,
        "0 > \"ping\"\n0 < \"ping\"\n",
        (1, "REJECT 2\nevents 2\nevent 0 < \"ping\"\n"),
    ),
    (
        KV,
        "0 > \"SET x 1\"\n0 < \"OK\"\n1 > \"GET x\"\n2 > \"SET x 2\"\n1 < \"VALUE 2\"\n2 < \"OK\"\n",
        (
            0,
            "ACCEPT\nevents 6\nworld 1\n0 > \"SET x 1\"\ntake 0 \"SET x 1\"\nsend 0 \"OK\"\n0 < \"OK\"\n1 > \"GET x\"\n2 > \"SET x 2\"\ntake 2 \"SET x 2\"\ntest yes\nsend 2 \"OK\"\ntake 1 \"GET x\"\ntest yes\nsend 1 \"VALUE 2\"\n1 < \"VALUE 2\"\n2 < \"OK\"\nend\n",
        ),
    ),
    (
        KV,
        "0 > \"SET x 1\"\n0 < \"OK\"\n1 > \"GET x\"\n2 > \"SET x 2\"\n1 < \"VALUE 2\"\n2 < \"OK\"\n3 > \"GET x\"\n3 < \"VALUE 1\"\n",
        (1, "REJECT 8\nevents 8\nevent 3 < \"VALUE 1\"\n"),
    ),
];

#[test]
fn exchanges_are_judged(rt: HostRuntime) -> Result<(), Fail> {
    let alloc = rt.alloc();
    for (spec, lines, answer) in JUDGED {
        assert!(rt; does_judge_lines(alloc, spec, lines, answer)?, "{lines}");
    }
    Ok(())
}

/// Texts of exchanges that are refused by their line.
const REFUSED: [(&str, &str); 5] = [
    ("", "file 2 text 2 line 1\n"),
    ("exchange 1\n0 > \"a\"\n", "file 2 text 2 line 3\n"),
    ("exchange 1\n0 > \"\\x61\"\nend\n", "file 2 text 1 line 2\n"),
    ("exchange 1\n2 > \"a\"\nend\n", "file 2 text 1 line 2\n"),
    ("exchange 1\nend\n ", "file 2 text 1 line 3\n"),
];

#[test]
fn texts_of_exchanges_are_refused_by_their_line(rt: HostRuntime) -> Result<(), Fail> {
    let alloc = rt.alloc();
    for (events, report) in REFUSED {
        assert!(rt; does_judge(alloc, ECHO, events, (6, report))?, "{events}");
    }
    Ok(())
}

#[test]
fn a_specification_with_a_pick_is_not_judged_yet(rt: HostRuntime) -> Result<(), Fail> {
    assert!(rt; does_judge_lines(rt.alloc(), TOK, "", (13, "file 1 not built\n"))?);
    Ok(())
}
