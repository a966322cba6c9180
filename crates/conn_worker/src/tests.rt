//! What a driver keeps, hands over and answers.

ghost use Rattle.std.specs.Prelude.{◌≡◌, ◌≤◌, false, [], ◌∷◌, length, IfOk, Some};
ghost use Rattle.conn_worker.specs.Driving.{AreActions, Fits};
ghost use Rattle.dt_ports.specs.Link.{IsFresh};
ghost use Rattle.exchange_text.specs.Actions.{IsAction};
ghost use Rattle.spec_model.specs.declared.event.Framing.{Framing};

use crate::{Driver, DriverState};
use dt_ports::book::Book;
use dt_ports::end::End;
use dt_ports::link::Link;
use dt_ports::list_book::ListBook;
use dt_ports::mem_link::MemLink;
use dt_ports::steps::{Incoming, Outgoing};
use exchange_text::action::{Action, Part};
use spec_model::Memory;
use spec_model::event::{ClientEvent, Framing, Shape, Verdict};
use spec_model::list::{Bytes, List};
use std::alloc::Global;
use std::net::Net;
use std::process::Abort;
use std::rt::Clock;
use std::sync::Wait;
use std::test::Fail;
use std::thread::Threads;

/// `line` framing, messages of at most four bytes, two connections.
const SHAPE: Shape = Shape {
    framing: Framing::Line,
    limit: 4,
    conns: 2,
};

/// How many actions a case has at most.
const MOST: usize = 8;

/// An action.
#[derive(Clone, Copy)]
enum Do {
    /// To send `ab`.
    Say,
    /// To send the first byte of the message of this number, or `?`. There is none of number 0.
    Echo(u8),
    /// To wait for so many messages, one at least.
    Await(u8),
}

/// A receive step.
#[derive(Clone, Copy)]
enum In<'a> {
    Piece(&'a str),
    NotReady,
    Failed,
    End,
}

/// A case: the actions, the receive steps, the send steps, and how often the last one stands; the limit of the book and its
/// verdict. Then what the book keeps, how the driving ends, and what is sent.
#[derive(Clone, Copy)]
struct Case<'a> {
    actions: &'a [Do],
    receives: &'a [In<'a>],
    sends: &'a [Outgoing],
    times: usize,
    limit: usize,
    verdict: Verdict,
    kept: &'a str,
    end: End,
    sent: &'a str,
}

/// A case of nothing at all.
fn nothing<'a>() -> Case<'a> {
    Case {
        actions: &[],
        receives: &[],
        sends: &[],
        times: 1,
        limit: 10,
        verdict: Verdict::Open,
        kept: "",
        end: End::Done,
        sent: "",
    }
}

/// Drives to the end. A turn that finds no memory is made again.
fn drive<R: Threads + Wait + Net + Clock + Sync, L: Link, B: Book>(
    rt: &R,
    alloc: Global,
    driver: &mut Driver<L>,
    book: &mut B,
) -> Option<End>
    requires shape { B.shape book.old ≡ driver.old.course.shape }
    requires fits { Fits driver.old (B.events book.old) }
    requires goes_on { driver.old.course.is_over ≡ false }
{
    'turns: for _ in 0..1_000u32 {
        if let Ok(DriverState::Over(end)) = driver.turn(rt, alloc, book) {
            return Some(end);
        }
    }
    None
}

/// The parts of a send.
fn parts_of(alloc: Global, part: Part) -> Result<List<Part>, Memory>
    ensures { IfOk result (λ parts. parts ≡ part ∷ []) }
{
    let mut parts = List::new(alloc);
    parts.push(part)?;
    Ok(parts)
}

/// An action of a case.
fn action_of(alloc: Global, wanted: Do, shape: Shape) -> Result<Action, Memory>
    requires line { shape.framing ≡ Framing.Line }
    requires limit { 4 ≤ shape.limit }
    ensures { IfOk result (IsAction shape) }
{
    let part = match wanted {
        Do::Await(count) => return Ok(Action::Await(u32::from(count.max(1)))),
        Do::Say => Part::Lit(Bytes::from_slice(alloc, b"ab")?),
        Do::Echo(receipt) => Part::Piece {
            receipt: u32::from(receipt.max(1)),
            start: 0,
            len: 1,
            fill: Bytes::from_slice(alloc, b"?")?,
        },
    };
    Ok(Action::Send(parts_of(alloc, part)?))
}

/// The actions of a case.
fn actions_of(alloc: Global, wanted: &[Do], shape: Shape) -> Result<Vec<Action>, Memory>
    requires few { length wanted.now ≤ 8 }
    requires line { shape.framing ≡ Framing.Line }
    requires limit { 4 ≤ shape.limit }
    ensures { IfOk result (λ actions. AreActions shape actions.items) }
{
    let mut actions = Vec::new(alloc);
    for action in wanted {
        actions.push(action_of(alloc, *action, shape)?)?;
    }
    Ok(actions)
}

/// The link of a case.
fn link_of(alloc: Global, case: &Case<'_>) -> Result<MemLink, Memory>
    ensures { IfOk result (λ link. IsFresh link.counts (Some link.sent) (Some link.got)) }
{
    let mut receives = Vec::new(alloc);
    for step in case.receives {
        receives.push(match step {
            In::Piece(text) => Incoming::piece(alloc, text.as_bytes())?,
            In::NotReady => Incoming::NotReady,
            In::Failed => Incoming::Failed,
            In::End => Incoming::End,
        })?;
    }
    let mut sends = Vec::new(alloc);
    for _ in 0..case.times {
        sends.extend_from_slice(case.sends)?;
    }
    MemLink::new(alloc, receives, sends, 100)
}

/// An event, as a line of text.
fn put_event(text: &mut String, event: &ClientEvent) -> Result<(), Memory> {
    let (mark, message) = match event {
        ClientEvent::Sends(_, message) => ('>', message.as_slice()),
        ClientEvent::Receives(_, message) => ('<', message.as_slice()),
        ClientEvent::Garbles(_) => ('!', b"".as_slice()),
    };
    text.push(mark)?;
    for byte in message {
        text.push(char::from(*byte))?;
    }
    text.push(' ')
}

/// Drives a case, and says how it ends, what the book keeps, and what is sent.
fn outcome<R: Threads + Wait + Net + Clock + Sync>(
    rt: &R,
    alloc: Global,
    case: &Case<'_>,
) -> Result<(Option<End>, String, MemLink), Memory>
    requires { length case.now.actions.now ≤ 8 }
{
    let mut book = ListBook::new(alloc, SHAPE, case.limit, case.verdict)?;
    let actions = actions_of(alloc, case.actions, SHAPE)?;
    let mut driver = Driver::new(alloc, link_of(alloc, case)?, SHAPE, 1, actions)?;
    let end = drive(rt, alloc, &mut driver, &mut book);
    let mut kept = String::new(alloc);
    for event in book.events() {
        put_event(&mut kept, event)?;
    }
    Ok((end, kept, driver.into_link()))
}

/// The same. Where there was no memory, it is done once more.
fn sure_outcome<R: Threads + Wait + Net + Clock + Sync>(
    rt: &R,
    alloc: Global,
    case: &Case<'_>,
) -> Result<(Option<End>, String, MemLink), Memory>
    requires { length case.now.actions.now ≤ 8 }
{
    match outcome(rt, alloc, case) {
        Ok(found) => Ok(found),
        Err(_) => outcome(rt, alloc, case),
    }
}

/// Drives each case, and compares.
fn drive_each<R: Abort + Threads + Wait + Net + Clock + Sync>(
    rt: &R,
    alloc: Global,
    cases: &[Case<'_>],
) -> Result<(), Fail> {
    for case in cases {
        assert!(rt; case.actions.len() <= MOST);
        let (end, kept, link) = sure_outcome(rt, alloc, case)?;
        assert_eq!(rt; kept.as_str(), case.kept);
        assert_eq!(rt; end, Some(case.end), "{}", case.kept);
        assert_eq!(rt; link.sent(), case.sent.as_bytes(), "{}", case.kept);
    }
    Ok(())
}

#[test]
fn messages_pass_in_pieces(rt: HostRuntime) -> Result<(), Fail> {
    let piecewise = [
        In::Piece("a"),
        In::NotReady,
        In::Piece("b"),
        In::Piece("\n"),
    ];
    let said_and_heard = Case {
        actions: &[Do::Say, Do::Await(1)],
        receives: &piecewise,
        kept: ">ab <ab ",
        sent: "ab\n",
        ..nothing()
    };
    let byte_by_byte = Case {
        sends: &[Outgoing::AtMost(1), Outgoing::NotReady],
        times: 3,
        ..said_and_heard
    };
    let no_room = Case {
        limit: 1,
        kept: ">ab ",
        end: End::Full,
        ..said_and_heard
    };
    let given_up = Case {
        actions: &[Do::Await(1), Do::Say],
        kept: ">ab ",
        sent: "ab\n",
        ..nothing()
    };
    let echoes = Case {
        actions: &[Do::Await(2), Do::Echo(2), Do::Echo(3)],
        receives: &[In::Piece("xy\nzw\n")],
        kept: "<xy <zw >z >? ",
        sent: "z\n?\n",
        ..nothing()
    };
    let cases = [said_and_heard, byte_by_byte, no_room, given_up, echoes];
    drive_each(&rt, rt.alloc(), &cases)
}

#[test]
fn each_end_comes(rt: HostRuntime) -> Result<(), Fail> {
    let ended = Case {
        receives: &[In::Piece("xy\nz"), In::End],
        kept: "<xy ",
        end: End::Ended,
        ..nothing()
    };
    let failed = Case {
        receives: &[In::Failed],
        end: End::Failed,
        ..nothing()
    };
    let garbled = Case {
        receives: &[In::Piece("xy\n12345")],
        kept: "<xy ! ",
        end: End::Garbled,
        ..nothing()
    };
    let stopped = Case {
        receives: &[In::Piece("x\ny\nz")],
        verdict: Verdict::Reject(1),
        kept: "<x <y ",
        end: End::Stopped,
        ..nothing()
    };
    let idle = Case {
        actions: &[Do::Say],
        sends: &[Outgoing::NotReady],
        times: 60,
        kept: ">ab ",
        end: End::Idle,
        ..nothing()
    };
    let failed_and_garbled = Case {
        actions: &[Do::Say],
        sends: &[Outgoing::Failed],
        receives: &[In::Piece("12345")],
        kept: ">ab ! ",
        end: End::Failed,
        ..nothing()
    };
    let cases = [ended, failed, garbled, stopped, idle, failed_and_garbled];
    drive_each(&rt, rt.alloc(), &cases)
}
