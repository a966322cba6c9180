//! Replaying the world of a file, which is to explain the exchange of a file by the specification of a file.

ghost use Rattle.std.specs.Prelude.{◌≡◌, IfErr, IfOk, List, true, ℕ};
ghost use Rattle.std.specs.List.{list_all};
ghost use Rattle.net_world.specs.Legality.{is_below};
ghost use Rattle.dt_ports.specs.Files.{NoFileCountFell};
ghost use Rattle.dualtest_main.specs.Outcome.{IsDue, IsReplay};
ghost use Rattle.dualtest_main.specs.Report.{not_replayed_report};
ghost use Rattle.dualtest_main.specs.Words.{Asks};
ghost use Rattle.dualtest_main.specs.Words as commands;

use crate::answer::{Answer, stopped};
use crate::reading::{read_events, read_spec, read_world_events};
use crate::replay_fault::ReplayFault;
use crate::report;
use crate::status::Status;
use dt_ports::files::Files;
use explain_replay::replay::{ReplayRefusal, replays};
use net_world::CONNS;
use spec_model::Memory;
use spec_model::event::{ClientEvent, WorldEvent};
use spec_rules::checked::Checked;
use std::alloc::{AllocError, Global};

/// What is due to `replay` with these files. Nothing but they is read.
pub fn replay_files<F: Files>(
    alloc: Global,
    files: &mut F,
    spec: &str,
    exchange: &str,
    world: &str,
) -> Result<Answer, Memory>
    ensures told { F.told files.new ≡ F.told files.old }
    ensures due { IfOk result (λ due. (words : List (List ℕ)) → Asks words (commands.replay spec.now exchange.now world.now)
        → IsDue (F.told files.old) words (F.counts files.old) (F.counts files.new) due.status due.report.items) }
    ensures memory { IfErr result (λ _. NoFileCountFell (F.counts files.old) (F.counts files.new)) }
{
    let checked = match read_spec(alloc, files, spec) {
        Ok(checked) => checked,
        Err(stop) => return stopped(alloc, stop),
    };
    let events = match read_events(alloc, files, exchange, &checked.spec().shape) {
        Ok(events) => events,
        Err(stop) => return stopped(alloc, stop),
    };
    let world = match read_world_events(alloc, files, world, &checked.spec().shape) {
        Ok(world) => world,
        Err(stop) => return stopped(alloc, stop),
    };
    replay(alloc, &checked, &events, &world)
}

/// Whether the world explains the exchange, and the report of that.
fn replay(
    alloc: Global,
    spec: &Checked,
    exchange: &[ClientEvent],
    world: &[WorldEvent],
) -> Result<Answer, Memory>
    requires { list_all (is_below CONNS) world.now ≡ true }
    ensures { IfOk result (λ due. IsReplay spec.now exchange.now world.now due.status due.report.items) }
{
    match replays(alloc, spec, exchange, world) {
        Ok(()) => Ok(Answer {
            status: Status::Done,
            report: report::replayed(alloc, exchange)?,
        }),
        Err(ReplayRefusal::NotLegal(place)) => refused(alloc, ReplayFault::NotLegal, place),
        Err(ReplayRefusal::NotServer(place)) => refused(alloc, ReplayFault::NotServer, place),
        Err(ReplayRefusal::NotExchange(place)) => refused(alloc, ReplayFault::NotExchange, place),
        Err(ReplayRefusal::Memory) => Err(AllocError),
    }
}

/// What is due where the world does not explain the exchange.
fn refused(alloc: Global, fault: ReplayFault, place: usize) -> Result<Answer, Memory>
    ensures { IfOk result (λ due. (due.status ≡ Status.NotReplayed fault place) × (due.report.items ≡ not_replayed_report fault place)) }
{
    Ok(Answer {
        status: Status::NotReplayed(fault, place),
        report: report::not_replayed(alloc, fault, place)?,
    })
}
