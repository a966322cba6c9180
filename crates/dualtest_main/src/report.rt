//! What is printed.

ghost use Rattle.std.specs.Prelude.{◌≡◌, ◌++◌, ◌∷◌, [], IfOk, OnOk, decimal};
ghost use Rattle.spec_model.specs.Message.{line_feed};
ghost use Rattle.dualtest_main.specs.Report.{accept_report, check_line, file_line, limit_words, not_replayed_report, notice_of, number_line, reject_report, replayed_report, text_line, usage_text};

use crate::replay_fault::ReplayFault;
use crate::stop::{Stop, TextFault};
use exchange_text::exchange::write_event;
use exchange_text::world::write_world;
use itoa::Buffer;
use spec_model::Memory;
use spec_model::event::{ClientEvent, WorldEvent};
use spec_rules::fault::Fault;
use std::alloc::Global;

/// What is printed where the words are those of no command.
const USAGE: &[u8] =
    b"usage:\ndualtest check SPEC\ndualtest judge SPEC EXCHANGE\ndualtest replay SPEC EXCHANGE WORLD\ndualtest script SPEC SEED CONNS STEPS\n";

/// The usage text.
pub fn usage(alloc: Global) -> Result<Vec<u8>, Memory>
    ensures { IfOk result (λ report. report.items ≡ usage_text) }
{
    Vec::from_slice(alloc, USAGE)
}

/// What is printed of why a command ended early.
pub fn notice(alloc: Global, stop: Stop) -> Result<Vec<u8>, Memory>
    ensures { IfOk result (λ report. report.items ≡ notice_of stop) }
{
    match stop {
        Stop::ReadFault(file) => file_line(alloc, file, b" read fault\n"),
        Stop::TooLong(file) => file_line(alloc, file, b" too long\n"),
        Stop::Syntax(at) => number_line(alloc, b"syntax at ", at),
        Stop::Bad(fault, at) => check_line(alloc, fault, at),
        Stop::Text(file, fault, line) => text_line(alloc, file, fault, line),
        Stop::Unbuilt(file) => file_line(alloc, file, b" not built\n"),
        Stop::Memory => Ok(Vec::new(alloc)),
    }
}

/// A line about a file, of which this is the end.
fn file_line(alloc: Global, file: u8, end: &[u8]) -> Result<Vec<u8>, Memory>
    ensures { IfOk result (λ line. line.items ≡ file_line file end.now) }
{
    let mut buffer = Buffer::new();
    let mut line = Vec::from_slice(alloc, b"file ")?;
    line.extend_from_slice(buffer.format(file).as_bytes())?;
    line.extend_from_slice(end)?;
    Ok(line)
}

/// The line of a fault of a specification and its place.
fn check_line(alloc: Global, fault: Fault, at: usize) -> Result<Vec<u8>, Memory>
    ensures { IfOk result (λ line. line.items ≡ check_line fault at) }
{
    let mut buffer = Buffer::new();
    let mut line = Vec::from_slice(alloc, b"check ")?;
    line.extend_from_slice(buffer.format(fault.number()).as_bytes())?;
    put_limit(&mut line, fault)?;
    put_number_line(&mut line, b" at ", at)?;
    Ok(line)
}

/// Puts the number of the limit at the end, where the fault is that one is passed.
fn put_limit(out: &mut Vec<u8>, fault: Fault) -> Result<(), Memory>
    ensures { OnOk result (out.new.items ≡ out.old.items ++ limit_words fault) }
{
    if let Fault::Limit(limit) = fault {
        let mut buffer = Buffer::new();
        out.extend_from_slice(b" limit ")?;
        out.extend_from_slice(buffer.format(limit.number()).as_bytes())?;
    }
    Ok(())
}

/// The line of a fault of a text of lines.
fn text_line(alloc: Global, file: u8, fault: TextFault, line: usize) -> Result<Vec<u8>, Memory>
    ensures { IfOk result (λ text. text.items ≡ text_line file fault line) }
{
    let mut buffer = Buffer::new();
    let mut text = Vec::from_slice(alloc, b"file ")?;
    text.extend_from_slice(buffer.format(file).as_bytes())?;
    text.extend_from_slice(b" text ")?;
    text.extend_from_slice(buffer.format(fault.number()).as_bytes())?;
    put_number_line(&mut text, b" line ", line)?;
    Ok(text)
}

/// A line of a word and a number.
fn number_line(alloc: Global, word: &[u8], number: usize) -> Result<Vec<u8>, Memory>
    ensures { IfOk result (λ line. line.items ≡ number_line word.now number) }
{
    let mut line = Vec::new(alloc);
    put_number_line(&mut line, word, number)?;
    Ok(line)
}

/// The report of an explained exchange.
pub fn accept(
    alloc: Global,
    exchange: &[ClientEvent],
    world: &[WorldEvent],
) -> Result<Vec<u8>, Memory>
    ensures { IfOk result (λ report. report.items ≡ accept_report exchange.now world.now) }
{
    let mut report = Vec::from_slice(alloc, b"ACCEPT\n")?;
    put_number_line(&mut report, b"events ", exchange.len())?;
    let world_text = write_world(alloc, world)?;
    report.extend_from_slice(&world_text)?;
    Ok(report)
}

/// The report of an exchange that is rejected at the event of this number, counted from 1.
pub fn reject(
    alloc: Global,
    exchange: &[ClientEvent],
    number: usize,
    event: &ClientEvent,
) -> Result<Vec<u8>, Memory>
    ensures { IfOk result (λ report. report.items ≡ reject_report exchange.now number event.now) }
{
    let mut report = Vec::new(alloc);
    put_number_line(&mut report, b"REJECT ", number)?;
    put_number_line(&mut report, b"events ", exchange.len())?;
    let line = write_event(alloc, event)?;
    report.extend_from_slice(b"event ")?;
    report.extend_from_slice(&line)?;
    report.push(b'\n')?;
    Ok(report)
}

/// The report of a world that explains the exchange.
pub fn replayed(alloc: Global, exchange: &[ClientEvent]) -> Result<Vec<u8>, Memory>
    ensures { IfOk result (λ report. report.items ≡ replayed_report exchange.now) }
{
    let mut report = Vec::from_slice(alloc, b"REPLAYED\n")?;
    put_number_line(&mut report, b"events ", exchange.len())?;
    Ok(report)
}

/// The report of a world that does not explain the exchange.
pub fn not_replayed(alloc: Global, fault: ReplayFault, place: usize) -> Result<Vec<u8>, Memory>
    ensures { IfOk result (λ report. report.items ≡ not_replayed_report fault place) }
{
    match fault {
        ReplayFault::NotLegal => number_line(alloc, b"NOT LEGAL ", place),
        ReplayFault::NotServer => number_line(alloc, b"NOT SERVER ", place),
        ReplayFault::NotExchange => number_line(alloc, b"NOT EXCHANGE ", place),
    }
}

/// Puts a line of a word and a number at the end.
fn put_number_line(out: &mut Vec<u8>, word: &[u8], number: usize) -> Result<(), Memory>
    ensures { OnOk result (out.new.items ≡ out.old.items ++ (word.now ++ (decimal number ++ line_feed ∷ []))) }
{
    let mut buffer = Buffer::new();
    out.extend_from_slice(word)?;
    out.extend_from_slice(buffer.format(number).as_bytes())?;
    out.push(b'\n')?;
    Ok(())
}
