//! Texts that are read, and where others are refused.

use spec_syntax::reader::{GREATEST_LENGTH, ReadRefusal, read};
use std::test::Fail;

/// It has its `conns` at 15, its `loop` at 30, and a `recv` at 37.
const PLACED: &[u8] = b" frame line 64 conns 2 # two\n loop { recv c { other m { send c m } } }";

#[test]
fn places_are_those_of_the_text(rt: HostRuntime) -> Result<(), Fail> {
    let spec = read(rt.alloc(), PLACED).ok().ok_or("refused")?;
    let [recv] = spec.body.stmts.as_slice() else {
        return Err("no statement".into());
    };
    let places = [spec.frame_at, spec.conns_at, spec.body.at, recv.at];
    assert_eq!(rt; places, [1, 15, 30, 37]);
    Ok(())
}

/// Texts that are refused, each with the first wrong byte.
const REFUSED: [(&[u8], usize); 5] = [
    (b"", 0),
    (b"frame lime 64", 8),
    (b"frame line 64", 13),
    (b"frame line 64 conns 1 loop { send if x", 36),
    (b"frame line 64 conns 1 loop { } loop", 31),
];

#[test]
fn other_texts_are_refused(rt: HostRuntime) -> Result<(), Fail> {
    let alloc = rt.alloc();
    for (text, at) in REFUSED {
        assert_eq!(rt; read(alloc, text).err(), Some(ReadRefusal::Syntax { at }));
    }
    let long = vec![in alloc; b' '; GREATEST_LENGTH + 1]?;
    assert_eq!(rt; read(alloc, &long).err(), Some(ReadRefusal::TooLong));
    Ok(())
}
