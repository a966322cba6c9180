//! What the files hold that the words name.

ghost use Rattle.std.specs.Prelude.{◌≡◌, ◌≤◌, IfErr, IfOk, OnOk, length};
ghost use Rattle.spec_rules.specs.Accepted.{IsAccepted};
ghost use Rattle.dt_ports.specs.Files.{one_read_more};
ghost use Rattle.spec_syntax.specs.Readable.{IsReadable};
ghost use Rattle.hypothesis.specs.Judged.{PicksNothing};
ghost use Rattle.dualtest_main.specs.Outcome.{ExchangeStops, HoldsExchange, HoldsSpec, HoldsWorld, JudgedSpecStops, SpecStops, SpellsExchange, SpellsFittingWorld, Stops, WorldStops};
ghost use Rattle.dualtest_main.specs.Stops.{StopsAtText, stop_of, text_stop_of};

use crate::stop::{Stop, TextFault};
use dt_ports::files::{FileFault, Files};
use exchange_text::exchange::read_exchange;
use exchange_text::refusal::TextRefusal;
use exchange_text::world::read_world;
use hypothesis::picks::picks_nothing;
use spec_check::check::{CheckRefusal, check};
use spec_model::event::{ClientEvent, Shape, WorldEvent};
use spec_rules::checked::Checked;
use spec_syntax::reader::{ReadRefusal, read};
use std::alloc::Global;

/// The greatest number of bytes of a specification's text.
pub const SPEC_LIMIT: usize = 65_536;
/// The greatest number of bytes of an exchange's text.
pub const EXCHANGE_LIMIT: usize = 80_000_000;
/// The greatest number of bytes of a world's text.
pub const WORLD_LIMIT: usize = 268_435_456;

/// The specification that the file of this name holds, which is the first file, where it is accepted.
pub fn read_spec<F: Files>(alloc: Global, files: &mut F, name: &str) -> Result<Checked, Stop>
    ensures told { F.told files.new ≡ F.told files.old }
    ensures counts { OnOk result (F.counts files.new ≡ one_read_more (F.counts files.old)) }
    ensures spec { IfOk result (λ spec. HoldsSpec (F.told files.old) name.now spec) }
    ensures stops { IfErr result (λ stop. Stops (F.told files.old) name.now SPEC_LIMIT SpecStops 1 (F.counts files.old) (F.counts files.new) stop) }
{
    match files.read(alloc, name, SPEC_LIMIT) {
        Ok(text) => spec_of(alloc, &text),
        Err(fault) => Err(stop_of(fault, 1)),
    }
}

/// As `read_spec`, where the specification is also one that is judged today.
pub fn read_judged_spec<F: Files>(alloc: Global, files: &mut F, name: &str) -> Result<Checked, Stop>
    ensures told { F.told files.new ≡ F.told files.old }
    ensures counts { OnOk result (F.counts files.new ≡ one_read_more (F.counts files.old)) }
    ensures spec { IfOk result (λ spec. HoldsSpec (F.told files.old) name.now spec) }
    ensures picks_nothing { IfOk result (λ spec. PicksNothing spec) }
    ensures stops { IfErr result (λ stop. Stops (F.told files.old) name.now SPEC_LIMIT JudgedSpecStops 1 (F.counts files.old) (F.counts files.new) stop) }
{
    match read_spec(alloc, files, name) {
        Err(stop) => Err(stop),
        Ok(spec) => {
            if picks_nothing(spec.spec()) {
                Ok(spec)
            } else {
                Err(Stop::Unbuilt(1))
            }
        }
    }
}

/// The specification of a text, where it is accepted.
fn spec_of(alloc: Global, text: &[u8]) -> Result<Checked, Stop>
    requires { length text.now ≤ SPEC_LIMIT }
    ensures spells { IfOk result (λ spec. IsReadable text.now spec) }
    ensures accepted { IfOk result (λ spec. IsAccepted spec) }
    ensures stops { IfErr result (λ stop. StopsAtText SpecStops text.now stop) }
{
    let spec = match read(alloc, text) {
        Ok(spec) => spec,
        Err(ReadRefusal::Syntax { at }) => return Err(Stop::Syntax(at)),
        Err(ReadRefusal::TooLong) => unreachable!(),
        Err(ReadRefusal::Memory) => return Err(Stop::Memory),
    };
    match check(alloc, spec) {
        Ok(checked) => Ok(checked),
        Err(CheckRefusal::Bad { fault, at }) => Err(Stop::Bad(fault, at)),
        Err(CheckRefusal::Memory) => Err(Stop::Memory),
    }
}

/// The exchange of this shape that the file of this name holds, which is the second file.
pub fn read_events<F: Files>(
    alloc: Global,
    files: &mut F,
    name: &str,
    shape: &Shape,
) -> Result<Vec<ClientEvent>, Stop>
    ensures told { F.told files.new ≡ F.told files.old }
    ensures counts { OnOk result (F.counts files.new ≡ one_read_more (F.counts files.old)) }
    ensures exchange { IfOk result (λ exchange. HoldsExchange (F.told files.old) name.now shape.now exchange.items) }
    ensures stops { IfErr result (λ stop. Stops (F.told files.old) name.now EXCHANGE_LIMIT (ExchangeStops shape.now) 2 (F.counts files.old) (F.counts files.new) stop) }
{
    match files.read(alloc, name, EXCHANGE_LIMIT) {
        Ok(text) => events_of(alloc, shape, &text),
        Err(fault) => Err(stop_of(fault, 2)),
    }
}

/// The exchange of a text.
fn events_of(alloc: Global, shape: &Shape, text: &[u8]) -> Result<Vec<ClientEvent>, Stop>
    ensures spells { IfOk result (λ exchange. SpellsExchange shape.now text.now exchange.items) }
    ensures stops { IfErr result (λ stop. StopsAtText (ExchangeStops shape.now) text.now stop) }
{
    match read_exchange(alloc, shape, text) {
        Ok(exchange) => Ok(exchange),
        Err(refusal) => Err(text_stop_of(refusal, 2)),
    }
}

/// The world of this shape that the file of this name holds, which is the third file.
pub fn read_world_events<F: Files>(
    alloc: Global,
    files: &mut F,
    name: &str,
    shape: &Shape,
) -> Result<Vec<WorldEvent>, Stop>
    ensures told { F.told files.new ≡ F.told files.old }
    ensures counts { OnOk result (F.counts files.new ≡ one_read_more (F.counts files.old)) }
    ensures world { IfOk result (λ world. HoldsWorld (F.told files.old) name.now shape.now world.items) }
    ensures stops { IfErr result (λ stop. Stops (F.told files.old) name.now WORLD_LIMIT (WorldStops shape.now) 3 (F.counts files.old) (F.counts files.new) stop) }
{
    match files.read(alloc, name, WORLD_LIMIT) {
        Ok(text) => world_of(alloc, shape, &text),
        Err(fault) => Err(stop_of(fault, 3)),
    }
}

/// The world of a text.
fn world_of(alloc: Global, shape: &Shape, text: &[u8]) -> Result<Vec<WorldEvent>, Stop>
    ensures spells { IfOk result (λ world. SpellsFittingWorld shape.now text.now world.items) }
    ensures stops { IfErr result (λ stop. StopsAtText (WorldStops shape.now) text.now stop) }
{
    match read_world(alloc, shape, text) {
        Ok(world) => Ok(world),
        Err(refusal) => Err(text_stop_of(refusal, 3)),
    }
}

/// Why nothing can be made of the file of this number, where it could not be read.
fn stop_of(fault: FileFault, file: u8) -> Stop
    ensures { result ≡ stop_of fault file }
{
    match fault {
        FileFault::Failed => Stop::ReadFault(file),
        FileFault::TooLong => Stop::TooLong(file),
        FileFault::Memory => Stop::Memory,
    }
}

/// Why nothing can be made of the file of this number, where its text was refused.
fn text_stop_of(refusal: TextRefusal, file: u8) -> Stop
    ensures { result ≡ text_stop_of refusal file }
{
    match refusal {
        TextRefusal::BadLine(line) => Stop::Text(file, TextFault::BadLine, line),
        TextRefusal::NoEnd(line) => Stop::Text(file, TextFault::NoEnd, line),
        TextRefusal::Limit(line) => Stop::Text(file, TextFault::Limit, line),
        TextRefusal::Memory => Stop::Memory,
    }
}
