//! What is drawn from a seed, seen of a specification, and made of both. The words, and the scripts by them, were worked out apart
//! from this crate.

ghost use Rattle.std.specs.Prelude.{◌≡◌, ◌≤◌, IfOk, length};
ghost use Rattle.std.specs.List.{AllByRecursion};
ghost use Rattle.script_gen.specs.Ready.{IsReady, IsTemplate};

use crate::plan::{Plan, Site};
use crate::script::{MAX_STEPS, made};
use crate::seen::{see_block, see_start};
use crate::words::Words;
use exchange_text::script::write_script;
use spec_model::Memory;
use spec_model::event::{Framing, Shape};
use spec_model::list::{Bytes, List};
use spec_model::tree::{Alphabet, Block, Case, Chan, Expr, HoleKind, Item, Kind, Stmt};
use sqlite_items::Items;
use std::alloc::Global;
use std::test::Fail;

#[test]
fn words_are_those_of_chacha_with_eight_rounds(rt: HostRuntime) -> Result<(), Fail> {
    let mut words = Words::new(0, 0);
    assert_eq!(rt; words.draw(1 << 32), 0x2fef_003e);
    assert_eq!(rt; words.draw(1 << 32), 0xd640_5f89);
    assert_eq!(rt; words.draw(1), 0);
    assert_eq!(rt; words.draw(1000), 0xa1a5_091f % 1000);
    Ok(())
}

#[test]
fn a_seed_is_the_key_and_a_stream_the_nonce(rt: HostRuntime) -> Result<(), Fail> {
    let mut words = Words::new(0x0102_0304_0506_0708, 2);
    assert_eq!(rt; words.draw(1 << 32), 0x61fd_faa9);
    assert_eq!(rt; words.draw(1 << 32), 0x6b0c_b547);
    Ok(())
}

fn text(alloc: Global, text: &str) -> Result<Bytes, Memory> {
    Bytes::from_slice(alloc, text.as_bytes())
}

fn string(alloc: Global, string: &str) -> Result<Expr, Memory> {
    Ok(Expr::Text(text(alloc, string)?))
}

fn name(alloc: Global, name: &str) -> Result<Expr, Memory> {
    Ok(Expr::Name(text(alloc, name)?))
}

/// A statement whose place plays no part.
fn stmt(kind: Kind) -> Stmt {
    Stmt { at: 0, kind }
}

fn block(stmts: Items<Stmt>) -> Block {
    Block { at: 0, stmts }
}

/// A send of a written text and what a name stands for.
fn send(alloc: Global, front: &str, pick: &str) -> Result<Stmt, Memory> {
    let mut parts = List::new(alloc);
    parts.push(string(alloc, front)?)?;
    parts.push(name(alloc, pick)?)?;
    let conn = Expr::Num(0);
    Ok(stmt(Kind::Send { conn, parts }))
}

fn pick(alloc: Global, name: &str, len: u64) -> Result<Stmt, Memory> {
    Ok(stmt(Kind::Pick {
        name: text(alloc, name)?,
        len,
        alphabet: Alphabet::Hex,
    }))
}

/// A case of one written text.
fn case(alloc: Global, pattern: &str, stmts: Items<Stmt>) -> Result<Case, Memory> {
    let mut items = List::new(alloc);
    items.push(Item::Lit(text(alloc, pattern)?))?;
    Ok(Case {
        items,
        block: block(stmts),
    })
}

fn recv(
    alloc: Global,
    cases: Items<Case>,
    other: &str,
    stmts: Items<Stmt>,
) -> Result<Stmt, Memory> {
    Ok(stmt(Kind::Recv {
        chan: Chan::Bind(text(alloc, "c")?),
        cases,
        other: text(alloc, other)?,
        rest: block(stmts),
    }))
}

/// A plan of one connection, with nothing seen.
fn empty_plan(alloc: Global) -> Plan {
    Plan {
        shape: Shape {
            framing: Framing::Line,
            limit: 64,
            conns: 1,
        },
        conns: 1,
        templates: List::new(alloc),
        sites: List::new(alloc),
    }
}

/// A `recv` whose case picks `t` and sends it, and whose `other` sends what no pick there bound and takes once more.
fn nested(alloc: Global) -> Result<Stmt, Memory> {
    let mut picking = Items::new(alloc);
    picking.push(send(alloc, "early", "t")?)?;
    picking.push(pick(alloc, "t", 8)?)?;
    picking.push(send(alloc, "id ", "t")?)?;
    let mut inner_cases = Items::new(alloc);
    inner_cases.push(case(alloc, "inner", Items::new(alloc))?)?;
    let mut sending = Items::new(alloc);
    sending.push(send(alloc, "late", "t")?)?;
    sending.push(recv(alloc, inner_cases, "n", Items::new(alloc))?)?;
    let mut cases = Items::new(alloc);
    cases.push(case(alloc, "outer", picking)?)?;
    recv(alloc, cases, "m", sending)
}

/// The text of a template's first item, or its name.
fn first_text(template: &[Item]) -> &[u8] {
    match template.first() {
        Some(Item::Lit(text) | Item::Hole(text, _)) => text.as_slice(),
        None => &[],
    }
}

#[test]
fn templates_and_sites_stand_in_the_order_of_the_text(rt: HostRuntime) -> Result<(), Fail> {
    let alloc = rt.alloc();
    let mut plan = empty_plan(alloc);
    let mut start = Items::new(alloc);
    start.push(pick(alloc, "t", 6)?)?;
    start.push(send(alloc, "", "t")?)?;
    see_start(alloc, &mut plan, &Some(block(start)))?;
    let mut body = Items::new(alloc);
    body.push(nested(alloc)?)?;
    body.push(send(alloc, "behind", "t")?)?;
    let mut last = Items::new(alloc);
    last.push(case(alloc, "last", Items::new(alloc))?)?;
    body.push(recv(alloc, last, "o", Items::new(alloc))?)?;
    see_block(alloc, &mut plan, &mut Vec::new(alloc), &block(body))?;
    assert_eq!(rt;
        plan.sites.as_slice(),
        [Site { start: 0, len: 6 }, Site { start: 3, len: 8 }].as_slice()
    );
    let mut asked = Vec::new(alloc);
    for template in plan.templates.as_slice() {
        asked.push(first_text(template.as_slice()))?;
    }
    assert_eq!(rt;
        asked.as_slice(),
        [b"outer".as_slice(), b"m", b"inner", b"n", b"last", b"o"].as_slice()
    );
    Ok(())
}

/// The text of what is made by a plan of a seed in so many steps.
fn made_text(alloc: Global, plan: &Plan, seed: u64, steps: u32) -> Result<Vec<u8>, Memory>
    requires ready { IsReady plan.now }
    requires few { steps ≤ MAX_STEPS }
{
    let script = made(alloc, plan, &mut Words::new(seed, 0), steps)?;
    write_script(alloc, &script)
}

/// A plan of a shape and so many connections, with the site of a token: six bytes behind three others.
fn plan_by(
    alloc: Global,
    shape: Shape,
    conns: u16,
    templates: List<List<Item>>,
) -> Result<Plan, Memory>
    requires one_conn { 1 ≤ conns }
    requires conns_within { conns ≤ shape.conns }
    requires one_template { 1 ≤ length templates }
    requires templates { AllByRecursion IsTemplate templates }
    ensures { IfOk result IsReady }
{
    let mut sites = List::new(alloc);
    sites.push(Site { start: 3, len: 6 })?;
    Ok(Plan {
        shape,
        conns,
        templates,
        sites,
    })
}

fn template_of_one(alloc: Global, item: Item) -> Result<List<Item>, Memory>
    ensures { IfOk result IsTemplate }
{
    let mut template = List::new(alloc);
    template.push(item)?;
    Ok(template)
}

/// A written text and a word behind it.
fn template_of_word(alloc: Global, front: &str) -> Result<List<Item>, Memory>
    ensures { IfOk result (λ template. length template ≡ 2) }
{
    let mut template = List::new(alloc);
    template.push(Item::Lit(text(alloc, front)?))?;
    template.push(Item::Hole(text(alloc, "k")?, HoleKind::Word))?;
    Ok(template)
}

/// A plan of two connections and messages of 64 bytes: a server that gives tokens, says of a word whether it is one, and answers to
/// whatever else it is sent.
fn token_plan(alloc: Global) -> Result<Plan, Memory>
    ensures { IfOk result IsReady }
{
    let asked = template_of_one(alloc, Item::Lit(text(alloc, "new")?))?;
    let told = template_of_word(alloc, "is ")?;
    let other = template_of_one(alloc, Item::Hole(text(alloc, "m")?, HoleKind::Rest))?;
    let mut templates = List::new(alloc);
    templates.push(asked)?;
    templates.push(told)?;
    templates.push(other)?;
    let shape = Shape {
        framing: Framing::Line,
        limit: 64,
        conns: 2,
    };
    plan_by(alloc, shape, 2, templates)
}

/// A plan of one connection and messages of so many bytes, by one template with an LF before a word.
fn cut_plan(alloc: Global, framing: Framing, limit: u16) -> Result<Plan, Memory>
    ensures { IfOk result IsReady }
{
    let mut template = template_of_word(alloc, "x\n")?;
    template.push(Item::Lit(text(alloc, "yz")?))?;
    let mut templates = List::new(alloc);
    templates.push(template)?;
    let shape = Shape {
        framing,
        limit,
        conns: 1,
    };
    plan_by(alloc, shape, 1, templates)
}

/// The second message has a piece of what was received before.
const PIECE_MADE: &str = r#"script 1
conns 2
0 send "is " "xnxhn"
0 await 1
0 send "is " piece 1 3 6 "000000"
0 send "is " "ujhdgx"
0 await 3
0 send ""
0 send "new"
0 await 5
end
"#;

/// An await is left out where 0 was drawn, and the last action before is none or an await.
const NEW_MADE: &str = r#"script 1
conns 2
1 send "new"
1 await 1
0 send "is " "eqa"
0 await 1
0 send "new"
0 await 2
0 send "diauqmr"
0 await 3
1 send ""
end
"#;

/// The last literal is cut.
const CUT_MADE: &str = r#"script 1
conns 1
0 send "x " "jpwb" "yz"
0 send "x " piece 1 3 6 "000000" "y"
0 await 2
end
"#;

/// The piece is left out.
const LEFT_OUT_MADE: &str = r#"script 1
conns 1
0 send "x\x0a" "jpwb" "y"
0 send "x\x0a" "yz"
0 await 2
end
"#;

#[test]
fn pieces_come_where_messages_were_sent_before(rt: HostRuntime) -> Result<(), Fail> {
    let alloc = rt.alloc();
    let plan = token_plan(alloc)?;
    let none = made_text(alloc, &plan, 2, 0)?;
    assert_eq!(rt; none.as_slice(), "script 1\nconns 2\nend\n".as_bytes());
    let some = made_text(alloc, &plan, 8, 5)?;
    assert_eq!(rt; some.as_slice(), PIECE_MADE.as_bytes());
    let other = made_text(alloc, &plan, 4, 5)?;
    assert_eq!(rt; other.as_slice(), NEW_MADE.as_bytes());
    Ok(())
}

#[test]
fn literals_are_cut_and_long_pieces_left_out(rt: HostRuntime) -> Result<(), Fail> {
    let alloc = rt.alloc();
    let cut = made_text(alloc, &cut_plan(alloc, Framing::Line, 9)?, 2, 2)?;
    assert_eq!(rt; cut.as_slice(), CUT_MADE.as_bytes());
    let left_out = made_text(alloc, &cut_plan(alloc, Framing::Len16, 7)?, 2, 2)?;
    assert_eq!(rt; left_out.as_slice(), LEFT_OUT_MADE.as_bytes());
    Ok(())
}
