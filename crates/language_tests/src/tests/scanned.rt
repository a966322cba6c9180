//! Where texts are refused, and the tokens of one text.

use spec_model::list::List;
use spec_model::token::{Keyword, Punctuation, Token};
use spec_scan::refusal::ScanRefusal;
use spec_scan::scan;
use std::alloc::{AllocError, Global};
use std::test::Fail;

/// A header without declarations.
const HEADER: &[u8] = b"frame line 64 conns 2 ";

/// The same, with a loop that is open.
const LOOP: &[u8] = b"frame line 64 conns 2 loop{";

/// The place in `back` at which the text of these parts is refused, or `None` where it is read.
fn refused_behind(alloc: Global, front: &[u8], back: &[u8]) -> Result<Option<usize>, AllocError> {
    let mut text = Vec::from_slice(alloc, front)?;
    text.extend_from_slice(back)?;
    match scan(alloc, &text) {
        Ok(_) => Ok(None),
        Err(ScanRefusal::Syntax { at }) => Ok(at.checked_sub(front.len())),
        Err(ScanRefusal::Memory) => Err(AllocError),
    }
}

/// Texts that are refused, each with the place.
const HEADERS: [(&[u8], usize); 35] = [
    // Cut short.
    (b"", 0),
    (b"f", 1),
    (b"frame", 5),
    (b"frame line", 10),
    (b"frame line 64", 13),
    (b"frame line 64 conns", 19),
    (b"frame line 64 conns 2", 21),
    (b"frame line 64 conns 2 loop", 26),
    (b"frame line 64 conns 2 loop{", 27),
    (b" \t\r\n", 4),
    (b"#", 1),
    (b"frame#x", 7),
    // Another word, or a word that goes on.
    (b"x", 0),
    (b"Frame", 0),
    (b"frame lime 64", 8),
    (b"frames", 5),
    (b"frame1", 5),
    (b"frame line line", 11),
    (b"frame line 64 conns2", 19),
    (b"frame line 64 conns 2 loop }", 27),
    (b"frame line 64 conns 2 loop{}x", 28),
    (b"frame line 64 conns 2 loop{}}", 28),
    // No byte of a specification.
    (b"\x00", 0),
    (b"\x0b", 0),
    (b"\x80", 0),
    (b"frame\"", 5),
    // Numbers.
    (b"frame line 064", 12),
    (b"frame line 00", 12),
    (b"frame line -1", 11),
    (b"frame line 1_", 12),
    (b"frame line 64conns", 13),
    (b"frame line 18446744073709551615", 31),
    (b"frame line 18446744073709551616 ", 30),
    (b"frame line 20000000000000000000 ", 30),
    (b"frame line 184467440737095516150", 31),
];

#[test]
fn refuses_headers(rt: HostRuntime) -> Result<(), Fail> {
    for (text, place) in HEADERS {
        assert_eq!(rt; refused_behind(rt.alloc(), b"", text)?, Some(place));
    }
    Ok(())
}

/// What is refused behind the header, each with the place.
const DECLARATIONS: [(&[u8], usize); 26] = [
    // Cut short.
    (b"text", 4),
    (b"text a", 6),
    (b"text a =", 8),
    (b"text a =\"", 9),
    (b"table", 5),
    (b"start", 5),
    (b"start{}", 7),
    // Another token.
    (b"text =", 5),
    (b"text a:", 6),
    (b"text a = 1", 9),
    (b"num a = \"", 8),
    (b"num a = x", 8),
    (b"num a = 07", 9),
    (b"table t =", 8),
    (b"start loop", 6),
    (b"start{}start", 7),
    (b"start{} text", 8),
    // `==` stands where `=` does.
    (b"text a ==", 8),
    (b"text a ==\"x\"", 8),
    (b"num a= =1", 7),
    // A keyword where a name stands: it may go on.
    (b"table text", 10),
    (b"table text ", 10),
    (b"table or ", 8),
    (b"num num = 1", 7),
    // A name of 33 bytes.
    (b"table aaaaaaaaaaaaaaaaaaaaaaaaaaaaaaaaa", 38),
    (b"table ____________________Z9Z9Z9Z9Z9Z9Z9", 38),
];

#[test]
fn refuses_declarations(rt: HostRuntime) -> Result<(), Fail> {
    for (text, place) in DECLARATIONS {
        assert_eq!(rt; refused_behind(rt.alloc(), HEADER, text)?, Some(place));
    }
    Ok(())
}

/// What is refused in the loop, each with the place.
const STATEMENTS: [(&[u8], usize); 67] = [
    // Cut short.
    (b"recv", 4),
    (b"recv c", 6),
    (b"recv c{case", 11),
    (b"recv c{other m{}}recv", 21),
    (b"if a < 1{}else", 14),
    (b"either{}", 8),
    (b"either{}o", 9),
    (b"send c \"a", 9),
    // The first word.
    (b"x", 0),
    (b"or", 0),
    (b"else{}", 1),
    (b"sendc", 4),
    (b"send0", 4),
    // `send`.
    (b"send if ", 7),
    (b"send \"", 5),
    (b"send c}", 6),
    (b"send c 1", 7),
    (b"send c m 1", 9),
    // `recv`.
    (b"recv c c", 7),
    (b"recv 0", 5),
    (b"recv from {", 10),
    (b"recv from \"", 10),
    (b"recv from c{}", 12),
    (b"recv c{case{", 11),
    (b"recv c{other m{}case", 16),
    (b"recv c{other {", 13),
    // Holes.
    (b"recv c{case k:text", 14),
    (b"recv c{case k:wort", 17),
    (b"recv c{case k word", 14),
    (b"recv c{case k::", 14),
    // `pick` and `set`.
    (b"pick 6", 5),
    (b"pick n hex", 7),
    (b"pick n 6 hax", 10),
    (b"pick n 6 alnum any", 15),
    (b"set \"", 4),
    (b"set x =", 6),
    (b"set x 1*", 7),
    (b"set x 1+}", 8),
    (b"set x 1+2+3", 9),
    (b"set x 1+2set", 9),
    // Conditions.
    (b"if a = b", 6),
    (b"if a = = b", 6),
    (b"if a=b", 5),
    (b"if a ! b", 6),
    (b"if a <= b", 6),
    (b"if a < 1 else", 9),
    (b"if a < 1{}else else", 15),
    (b"where a}", 7),
    // Blocks, arms and tables.
    (b"either{}}", 8),
    (b"either{}else", 8),
    (b"put t k}", 7),
    (b"get t k 1", 8),
    (b"del t k v", 8),
    (b"del \"a\"", 4),
    (b"{", 0),
    // Strings.
    (b"send c \"\n", 8),
    (b"send c \"\x1f", 8),
    (b"send c \"\x7f", 8),
    (b"send c \"\\a", 9),
    (b"send c \"\\N", 9),
    (b"send c \"\\x4", 11),
    (b"send c \"\\xA0", 10),
    (b"send c \"\\x0F", 11),
    (b"send c \"\\xg", 10),
    // Comments.
    (b"#\r}", 3),
    (b"# a\n#", 5),
    (b"#\nx", 2),
];

#[test]
fn refuses_statements(rt: HostRuntime) -> Result<(), Fail> {
    for (text, place) in STATEMENTS {
        assert_eq!(rt; refused_behind(rt.alloc(), LOOP, text)?, Some(place));
    }
    Ok(())
}

/// What is read behind the header.
const READ_DECLARATIONS: [&[u8]; 5] = [
    b"loop{}",
    b"text a=\"x\" loop{}",
    b"num a=0 conn b = 1 table t start{} loop{}",
    b"table ora loop{}",
    b"start{}loop{}",
];

#[test]
fn reads_declarations(rt: HostRuntime) -> Result<(), Fail> {
    for text in READ_DECLARATIONS {
        assert_eq!(rt; refused_behind(rt.alloc(), HEADER, text)?, None);
    }
    Ok(())
}

/// What is read in the loop.
const READ_STATEMENTS: [&[u8]; 19] = [
    b"}",
    b"# send 1\nsend c m#x\n}",
    b"}# no LF",
    b"send iffy \"x\"}",
    b"send 0 \"x\"}",
    b"send c m\"x\"m}",
    b"recv from 0{other m{}}}",
    b"recv c{case \"a\"k:word{}other m{}}}",
    b"recv c { case k : num { } other m { } } }",
    b"recv c{case k:rest{}case l:num\"x\"{}other m{}}}",
    b"pick n 6 hex pick n 6 alnum pick n 0 any}",
    b"set x 1+2 set y x-\"a\"set z\"q\"}",
    b"if a == b{}if a!=b{}else{}if 1<2{}}",
    b"either{}or{}or{}}",
    b"where a < b put t k v get t k v{}else{}get t k v{}del t k}",
    b"send c \"\\\"\\\\\\n\\r\\t\\x00\\xff\"}",
    b"send c \"\x80\xff~ !\"}",
    b"set a 18446744073709551615}",
    b"send aaaaaaaaaaaaaaaaaaaaaaaaaaaaaaaa \"\"}",
];

#[test]
fn reads_statements(rt: HostRuntime) -> Result<(), Fail> {
    for text in READ_STATEMENTS {
        assert_eq!(rt; refused_behind(rt.alloc(), LOOP, text)?, None);
    }
    Ok(())
}

/// The text of a loop with so many blocks inside one another.
fn nested(alloc: Global, blocks: u8) -> Result<Vec<u8>, AllocError> {
    let mut text = Vec::from_slice(alloc, LOOP)?;
    for _ in 0..blocks {
        text.extend_from_slice(b"if a<b{")?;
    }
    for _ in 0..blocks {
        text.push(b'}')?;
    }
    text.push(b'}')?;
    Ok(text)
}

#[test]
fn refuses_the_brace_33(rt: HostRuntime) -> Result<(), Fail> {
    let alloc = rt.alloc();
    // 31 blocks in the loop's are 32 open braces. The brace of block 32 stands 31 blocks of 7 bytes and 6 bytes behind the loop's.
    for (blocks, place) in [(31, None), (32, Some(250)), (40, Some(250))] {
        let text = nested(alloc, blocks)?;
        assert_eq!(rt;
            refused_behind(alloc, b"", &text)?,
            place,
            "{blocks} blocks"
        );
    }
    // Braces that were closed do not count.
    let mut text = Vec::from_slice(alloc, LOOP)?;
    for _ in 0..40 {
        text.extend_from_slice(b"if a<b{}")?;
    }
    assert_eq!(rt; refused_behind(alloc, &text, b"}")?, None);
    Ok(())
}

#[test]
fn reads_the_tokens(rt: HostRuntime) -> Result<(), Fail> {
    let alloc = rt.alloc();
    let text = b"frame line 64 # a comment\nconns 2 loop{if a==\"\\n\xe9\\x0a\"{}}";
    let placed = match scan(alloc, text) {
        Ok(placed) => placed,
        Err(_) => return Ok(assert!(rt; false)),
    };
    let wanted = [
        (0, Token::Keyword(Keyword::Frame)),
        (6, Token::Keyword(Keyword::Line)),
        (11, Token::Number(64)),
        (26, Token::Keyword(Keyword::Conns)),
        (32, Token::Number(2)),
        (34, Token::Keyword(Keyword::Loop)),
        (38, Token::Sign(Punctuation::Open)),
        (39, Token::Keyword(Keyword::If)),
        (42, Token::Name(List::from_slice(alloc, b"a")?)),
        (43, Token::Sign(Punctuation::Same)),
        (45, Token::Text(List::from_slice(alloc, b"\n\xe9\n")?)),
        (54, Token::Sign(Punctuation::Open)),
        (55, Token::Sign(Punctuation::Close)),
        (56, Token::Sign(Punctuation::Close)),
    ];
    assert_eq!(rt; placed.len(), wanted.len());
    for ((at, token), found) in wanted.iter().zip(placed.iter()) {
        assert_eq!(rt; found.at, *at);
        assert!(rt; alike(&found.token, token), "at {at}");
    }
    Ok(())
}

fn alike(one: &Token, other: &Token) -> bool {
    match (one, other) {
        (Token::Keyword(a), Token::Keyword(b)) => a == b,
        (Token::Name(a), Token::Name(b)) => a == b,
        (Token::Number(a), Token::Number(b)) => a == b,
        (Token::Text(a), Token::Text(b)) => a == b,
        (Token::Sign(a), Token::Sign(b)) => a == b,
        _ => false,
    }
}
