//! Trees of tokens that are written out. Each token's place is its number in the list.

use spec_build::build::build;
use spec_model::Memory;
use spec_model::list::List;
use spec_model::token::{Keyword, Placed, Punctuation, Token};
use std::alloc::Global;
use std::test::Fail;

/// The token that is written so: a text stands between `'`, and what is no keyword, number or sign is a name.
fn token(alloc: Global, written: &str) -> Result<Token, Memory> {
    let word = |keyword: Keyword| Ok(Token::Keyword(keyword));
    let sign = |punctuation: Punctuation| Ok(Token::Sign(punctuation));
    match written {
        "frame" => word(Keyword::Frame),
        "line" => word(Keyword::Line),
        "len16" => word(Keyword::Len16),
        "conns" => word(Keyword::Conns),
        "text" => word(Keyword::Text),
        "num" => word(Keyword::Num),
        "conn" => word(Keyword::Conn),
        "table" => word(Keyword::Table),
        "start" => word(Keyword::Start),
        "loop" => word(Keyword::Loop),
        "recv" => word(Keyword::Recv),
        "from" => word(Keyword::From),
        "case" => word(Keyword::Case),
        "other" => word(Keyword::Other),
        "send" => word(Keyword::Send),
        "set" => word(Keyword::Set),
        "if" => word(Keyword::If),
        "else" => word(Keyword::Else),
        "either" => word(Keyword::Either),
        "or" => word(Keyword::Or),
        "word" => word(Keyword::Word),
        "rest" => word(Keyword::Rest),
        "{" => sign(Punctuation::Open),
        "}" => sign(Punctuation::Close),
        ":" => sign(Punctuation::Colon),
        "=" => sign(Punctuation::Becomes),
        "==" => sign(Punctuation::Same),
        "+" => sign(Punctuation::Plus),
        "-" => sign(Punctuation::Minus),
        _ => other_token(alloc, written),
    }
}

fn other_token(alloc: Global, written: &str) -> Result<Token, Memory> {
    if let Some(text) = written.strip_prefix("'") {
        return Ok(Token::Text(List::from_slice(alloc, text.as_bytes())?));
    }
    match written.parse::<u64>() {
        Ok(number) => Ok(Token::Number(number)),
        Err(_) => Ok(Token::Name(List::from_slice(alloc, written.as_bytes())?)),
    }
}

fn tokens(alloc: Global, text: &str) -> Result<Vec<Placed>, Memory> {
    let mut tokens = Vec::new(alloc);
    for (at, written) in text.split_whitespace().enumerate() {
        let token = token(alloc, written)?;
        tokens.push(Placed { at, token })?;
    }
    Ok(tokens)
}

/// The tree of the tokens, as its derived text.
fn shown(alloc: Global, text: &str) -> Result<String, Memory> {
    let tokens = tokens(alloc, text)?;
    let built = build(alloc, tokens.as_slice())?;
    format!(in alloc; "{built:?}")
}

#[test]
fn header_cases_and_differences(rt: HostRuntime) -> Result<(), Fail> {
    let text =
        "frame line 64 conns 70000 text t = 'ab start { } loop { recv c { case 'x k : word { set n n - 1 } other m { send c m } } }";
    let case =
        "Case { items: List { items: [Lit(List { items: [120] }), Hole(List { items: [107] }, Word)] }, \
        block: Block { at: 22, stmts: Items { items: [Stmt { at: 23, kind: Assign { name: List { items: [110] }, \
        left: Name(List { items: [110] }), tail: Some((Minus, Num(1))) } }] } } }";
    let rest =
        "Block { at: 31, stmts: Items { items: [Stmt { at: 32, kind: Send { conn: Name(List { items: [99] }), \
        parts: List { items: [Name(List { items: [109] })] } } }] } }";
    let expected = format!(in rt.alloc();
        "Some(Spec {{ shape: Shape {{ framing: Line, limit: 64, conns: 65535 }}, frame_at: 0, conns_at: 3, \
        decls: List {{ items: [Decl {{ at: 5, name: List {{ items: [116] }}, first: Text(List {{ items: [97, 98] }}) }}] }}, \
        start: Some(Block {{ at: 9, stmts: Items {{ items: [] }} }}), \
        body: Block {{ at: 12, stmts: Items {{ items: [Stmt {{ at: 14, kind: Recv {{ chan: Bind(List {{ items: [99] }}), \
        cases: Items {{ items: [{case}] }}, other: List {{ items: [109] }}, rest: {rest} }} }}] }} }} }})"
    )?;
    assert_eq!(rt; shown(rt.alloc(), text)?.as_str(), expected.as_str());
    Ok(())
}

#[test]
fn missing_and_empty_else(rt: HostRuntime) -> Result<(), Fail> {
    let text = "frame len16 9 conns 2 table t loop { if a == 1 { } if a == 1 { } else { } }";
    let cond = "cond: Cond { left: Name(List { items: [97] }), op: Same, right: Num(1) }";
    let expected = format!(in rt.alloc();
        "Some(Spec {{ shape: Shape {{ framing: Len16, limit: 9, conns: 2 }}, frame_at: 0, conns_at: 3, \
        decls: List {{ items: [Decl {{ at: 5, name: List {{ items: [116] }}, first: Table }}] }}, start: None, \
        body: Block {{ at: 7, stmts: Items {{ items: [\
        Stmt {{ at: 9, kind: If {{ {cond}, yes: Block {{ at: 13, stmts: Items {{ items: [] }} }}, no: Block {{ at: 9, stmts: Items {{ items: [] }} }} }} }}, \
        Stmt {{ at: 15, kind: If {{ {cond}, yes: Block {{ at: 19, stmts: Items {{ items: [] }} }}, no: Block {{ at: 22, stmts: Items {{ items: [] }} }} }} }}\
        ] }} }} }})"
    )?;
    assert_eq!(rt; shown(rt.alloc(), text)?.as_str(), expected.as_str());
    Ok(())
}

#[test]
fn arms_and_named_connections(rt: HostRuntime) -> Result<(), Fail> {
    let text =
        "frame line 1 conns 1 loop { recv from 1 { other m { either { } or { send 0 'b c } or { } } } }";
    let send =
        "Stmt { at: 19, kind: Send { conn: Num(0), parts: List { items: [Text(List { items: [98] }), Name(List { items: [99] })] } } }";
    let expected = format!(in rt.alloc();
        "Some(Spec {{ shape: Shape {{ framing: Line, limit: 1, conns: 1 }}, frame_at: 0, conns_at: 3, \
        decls: List {{ items: [] }}, start: None, body: Block {{ at: 5, stmts: Items {{ items: [Stmt {{ at: 7, kind: Recv {{ \
        chan: From(Num(1)), cases: Items {{ items: [] }}, other: List {{ items: [109] }}, \
        rest: Block {{ at: 13, stmts: Items {{ items: [Stmt {{ at: 14, kind: Either {{ arms: Items {{ items: [\
        Block {{ at: 15, stmts: Items {{ items: [] }} }}, \
        Block {{ at: 18, stmts: Items {{ items: [{send}] }} }}, \
        Block {{ at: 25, stmts: Items {{ items: [] }} }}\
        ] }} }} }}] }} }} }} }}] }} }} }})"
    )?;
    // The tokens: frame 0, loop 5, recv 7, from 8, other 11, either 14, its arms 15, 18 and 25.
    assert_eq!(rt; shown(rt.alloc(), text)?.as_str(), expected.as_str());
    Ok(())
}

#[test]
fn tokens_of_no_tree(rt: HostRuntime) -> Result<(), Fail> {
    for text in [
        "frame line 1 conns 1",
        "frame line 1 conns 1 loop { } loop { }",
        "frame line 1 conns 1 loop { either { } }",
        "frame line 1 conns 1 loop { send c }",
        "frame line 1 conns 1 loop { send 'c m }",
    ] {
        assert_eq!(rt; shown(rt.alloc(), text)?.as_str(), "None", "{text}");
    }
    Ok(())
}
