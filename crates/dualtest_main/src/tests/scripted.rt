//! What `script` answers. The scripts were worked out apart from this program.

use super::{Answer, ECHO, KV, TOK, USAGE, answered, is, repeated};
use std::alloc::{AllocError, Global};
use std::test::Fail;

/// Whether `script` answers so to a specification, and to words of a seed, of a number of connections and of one of steps.
fn does_script(
    alloc: Global,
    spec: &str,
    numbers: [&str; 3],
    answer: Answer<'_>,
) -> Result<bool, AllocError> {
    let [seed, conns, steps] = numbers;
    let found = answered(alloc, &["script", "spec", seed, conns, steps], spec, "")?;
    Ok(is(&found, answer))
}

/// A specification, the words of the numbers, and the script.
const SCRIPTED: [(&str, [&str; 3], &str); 6] = [
    (ECHO, ["1", "1", "0"], "script 1\nconns 1\nend\n"),
    (
        ECHO,
        ["1", "2", "4"],
        "script 1\nconns 2\n1 send \"o\"\n1 await 1\n0 send \"ga\"\n0 await 1\n0 send \"qgmvqpo\"\n1 send \"yora\"\nend\n",
    ),
    // There are no more connections than the specification has.
    (
        ECHO,
        ["1", "16", "4"],
        "script 1\nconns 2\n1 send \"o\"\n1 await 1\n0 send \"ga\"\n0 await 1\n0 send \"qgmvqpo\"\n1 send \"yora\"\nend\n",
    ),
    // A piece of what was received stands for a word, where a pick is sent.
    (
        TOK,
        ["7", "2", "8"],
        "script 1\nconns 2\n1 send \"is \" \"uc\"\n1 await 1\n0 send \"new\"\n0 await 1\n0 send \"veagdla\"\n0 await 2\n0 send \"gxobuflm\"\n0 await 3\n1 send \"new\"\n1 send \"new\"\n1 await 3\n1 send \"is \" \"jxkjuy\"\n1 await 4\n0 send \"is \" piece 2 3 6 \"000000\"\n0 await 4\nend\n",
    ),
    (
        TOK,
        ["18446744073709551615", "2", "4"],
        "script 1\nconns 2\n1 send \"pwcid\"\n0 send \"tspofxi\"\n0 await 1\n0 send \"new\"\n0 await 2\n1 send \"ce\"\n1 await 2\nend\n",
    ),
    (
        KV,
        ["5", "4", "6"],
        "script 1\nconns 4\n0 send \"GET \" \"pbfno\"\n0 await 1\n1 send \"SET \" \"r\" \" \" \"gfk\"\n1 await 1\n2 send \"DEL \" \"adbzc\"\n2 await 1\n3 send \"GET \" \"kpphq\"\n3 send \"DEL \" \"a\"\n3 await 2\n1 send \"GET \" \"lerpo\"\n1 await 2\nend\n",
    ),
];

#[test]
fn scripts_are_printed(rt: HostRuntime) -> Result<(), Fail> {
    for (spec, numbers, script) in SCRIPTED {
        assert!(rt;
            does_script(rt.alloc(), spec, numbers, (0, script))?,
            "{script}"
        );
    }
    Ok(())
}

#[test]
fn the_greatest_numbers_are_taken(rt: HostRuntime) -> Result<(), Fail> {
    let words = ["script", "spec", "18446744073709551615", "16", "4096"];
    let (status, _) = answered(rt.alloc(), &words, TOK, "")?;
    assert_eq!(rt; status, 0);
    Ok(())
}

/// Numbers that are spelled otherwise than in decimal, without sign and leading zeros, and numbers past a bound.
const OTHER_NUMBERS: [[&str; 3]; 14] = [
    ["", "1", "0"],
    ["01", "1", "0"],
    ["+1", "1", "0"],
    ["-1", "1", "0"],
    [" 1", "1", "0"],
    ["1.0", "1", "0"],
    ["0x1", "1", "0"],
    ["one", "1", "0"],
    ["18446744073709551616", "1", "0"],
    ["1", "0", "0"],
    ["1", "17", "0"],
    ["1", "01", "0"],
    ["1", "1", "00"],
    ["1", "1", "4097"],
];

#[test]
fn other_numbers_print_the_usage(rt: HostRuntime) -> Result<(), Fail> {
    for numbers in OTHER_NUMBERS {
        let [seed, conns, steps] = numbers;
        assert!(rt;
            does_script(rt.alloc(), ECHO, numbers, (3, USAGE))?,
            "{seed} {conns} {steps}"
        );
    }
    Ok(())
}

#[test]
fn a_script_is_made_of_an_accepted_specification(rt: HostRuntime) -> Result<(), Fail> {
    let alloc = rt.alloc();
    let blanks = repeated(alloc, "", " ", 65_537, "")?;
    for (spec, answer) in [
        ("frame lime 64", (4, "syntax at 8\n")),
        ("frame line 9 conns 1 loop { }", (5, "check 4 at 21\n")),
        (blanks.as_str(), (12, "file 1 too long\n")),
    ] {
        assert!(rt; does_script(alloc, spec, ["1", "1", "0"], answer)?);
    }
    Ok(())
}
