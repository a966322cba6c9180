//! Judging the exchange of a file by the specification of a file.

ghost use Rattle.std.specs.Prelude.{◌≡◌, ◌≤◌, IfErr, IfOk, List, length, ℕ};
ghost use Rattle.spec_model.specs.Least.{IsLeastExplanation};
ghost use Rattle.spec_model.specs.World.{IsExchange, IsExplained};
ghost use Rattle.dt_ports.specs.Files.{NoFileCountFell};
ghost use Rattle.hypothesis.specs.Judged.{PicksNothing};
ghost use Rattle.dualtest_main.specs.Outcome.{IsDue, IsJudgement};
ghost use Rattle.dualtest_main.specs.Words.{Asks};
ghost use Rattle.dualtest_main.specs.Words as commands;

use crate::answer::{Answer, stopped};
use crate::reading::{read_events, read_judged_spec};
use crate::report;
use crate::status::Status;
use dt_ports::files::Files;
use dual_tree::turn::dual_of;
use explain_replay::explain::explain;
use hypothesis_pool::pool::Pool;
use spec_model::Memory;
use spec_model::event::{ClientEvent, Verdict, WorldEvent};
use spec_rules::checked::Checked;
use std::alloc::Global;

/// What is due to `judge` with these files. Nothing but they is read.
pub fn judge_files<F: Files>(
    alloc: Global,
    files: &mut F,
    spec: &str,
    exchange: &str,
) -> Result<Answer, Memory>
    ensures told { F.told files.new ≡ F.told files.old }
    ensures due { IfOk result (λ due. (words : List (List ℕ)) → Asks words (commands.judge spec.now exchange.now)
        → IsDue (F.told files.old) words (F.counts files.old) (F.counts files.new) due.status due.report.items) }
    ensures memory { IfErr result (λ _. NoFileCountFell (F.counts files.old) (F.counts files.new)) }
{
    let checked = match read_judged_spec(alloc, files, spec) {
        Ok(checked) => checked,
        Err(stop) => return stopped(alloc, stop),
    };
    let events = match read_events(alloc, files, exchange, &checked.spec().shape) {
        Ok(events) => events,
        Err(stop) => return stopped(alloc, stop),
    };
    judgement(alloc, checked, &events)
}

/// The verdict of the exchange, and its report.
fn judgement(alloc: Global, spec: Checked, exchange: &[ClientEvent]) -> Result<Answer, Memory>
    requires picks_nothing { PicksNothing spec }
    requires exchange { IsExchange spec.shape exchange.now }
    requires few { length exchange.now ≤ 4096 }
    ensures { IfOk result (λ due. IsJudgement spec exchange.now due.status due.report.items) }
{
    let pool = fed_pool(alloc, spec.copy(alloc)?, exchange)?;
    match pool.verdict() {
        Verdict::Open => {
            let world = least_world(alloc, &spec, &pool, exchange)?;
            Ok(Answer {
                status: Status::Done,
                report: report::accept(alloc, exchange, &world)?,
            })
        }
        Verdict::Reject(number) => Ok(Answer {
            status: Status::Reject(number),
            report: report::reject(alloc, exchange, number, &exchange[number - 1])?,
        }),
        Verdict::Inconclusive(_) => unreachable!(),
    }
}

/// The least explanation of the exchange, which was fed to the pool.
fn least_world(
    alloc: Global,
    spec: &Checked,
    pool: &Pool,
    exchange: &[ClientEvent],
) -> Result<Vec<WorldEvent>, Memory>
    requires spec { pool.now.dual.spec ≡ spec.now }
    requires shape { pool.now.dual.shape ≡ spec.now.shape }
    requires events { pool.now.events ≡ exchange.now }
    requires picks_nothing { PicksNothing spec.now }
    requires of_shape { IsExchange spec.now.shape exchange.now }
    requires few { length exchange.now ≤ 4096 }
    requires explained { IsExplained spec.now exchange.now }
    ensures { IfOk result (λ world. IsLeastExplanation spec.now world.items exchange.now) }
{
    let Some(skeleton) = pool.first(alloc)? else {
        unreachable!()
    };
    explain(alloc, pool.dual(), spec, exchange, &skeleton)
}

/// The pool of all explanations of the exchange.
fn fed_pool(alloc: Global, spec: Checked, exchange: &[ClientEvent]) -> Result<Pool, Memory>
    requires picks_nothing { PicksNothing spec }
    requires exchange { IsExchange spec.shape exchange.now }
    ensures spec { IfOk result (λ pool. pool.dual.spec ≡ spec) }
    ensures shape { IfOk result (λ pool. pool.dual.shape ≡ spec.shape) }
    ensures events { IfOk result (λ pool. pool.events ≡ exchange.now) }
{
    let dual = dual_of(alloc, spec)?;
    let mut pool = Pool::new(alloc, dual)?;
    for event in exchange {
        pool.feed(alloc, event)?;
    }
    Ok(pool)
}
