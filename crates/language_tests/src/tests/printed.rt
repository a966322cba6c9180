//! Texts of specifications, read and printed.

use spec_print::print::print;
use spec_syntax::reader::read;
use std::alloc::Global;
use std::test::Fail;

/// The canonical text of what a text spells.
fn printed(alloc: Global, text: &str) -> Result<String, Fail> {
    let spec = read(alloc, text.as_bytes())?;
    Ok(String::from_utf8(print(alloc, &spec)?)?)
}

/// Texts, each with its canonical text.
const PRINTED: [(&str, &str); 2] = [
    (
        "frame line 64 conns 2 loop{recv c{other m{send c m}}}",
        r#"frame line 64
conns 2
loop {
  recv c {
    other m {
      send c m
    }
  }
}
"#,
    ),
    // Each kind of declaration, statement, condition and alphabet; bytes that are quoted; blocks that are empty and left out.
    (
        r#"frame len16 64 conns 2 # a comment
text n="a\"\n" num n=0 conn n=1 table n
start{set n 1 set n 1+2 set n 1-2 where n<7 put t "k" v del t k}
loop{recv from c{
  case "x "h:word h:num h:rest{get t k v{send 0 v "\x41\xff"}else{set n 1}if n==1{}if n!=2{}else{set n 1}
    either{}or{pick p 6 hex pick p 6 alnum pick p 6 any}or{}}
  other m{}}}"#,
        r#"frame len16 64
conns 2
text n = "a\"\x0a"
num n = 0
conn n = 1
table n
start {
  set n 1
  set n 1 + 2
  set n 1 - 2
  where n < 7
  put t "k" v
  del t k
}
loop {
  recv from c {
    case "x " h:word h:num h:rest {
      get t k v {
        send 0 v "A\xff"
      } else {
        set n 1
      }
      if n == 1 {
      }
      if n != 2 {
      } else {
        set n 1
      }
      either {
      } or {
        pick p 6 hex
        pick p 6 alnum
        pick p 6 any
      } or {
      }
    }
    other m {
    }
  }
}
"#,
    ),
];

#[test]
fn texts_are_printed_in_canonical_form(rt: HostRuntime) -> Result<(), Fail> {
    for (text, canonical) in PRINTED {
        assert_eq!(rt; printed(rt.alloc(), text)?.as_str(), canonical);
        assert_eq!(rt; printed(rt.alloc(), canonical)?.as_str(), canonical);
    }
    Ok(())
}
