//! Checking the specification of a file.

ghost use Rattle.std.specs.Prelude.{◌≡◌, IfErr, IfOk, List, ℕ};
ghost use Rattle.dt_ports.specs.Files.{NoFileCountFell};
ghost use Rattle.dualtest_main.specs.Outcome.{IsDue};
ghost use Rattle.dualtest_main.specs.Words.{Asks};
ghost use Rattle.dualtest_main.specs.Words as commands;

use crate::answer::{Answer, stopped};
use crate::reading::read_spec;
use crate::status::Status;
use dt_ports::files::Files;
use spec_model::Memory;
use spec_print::print::print;
use std::alloc::Global;

/// What is due to `check` with this file: its canonical text, where it holds a specification that is accepted.
pub fn check_file<F: Files>(alloc: Global, files: &mut F, spec: &str) -> Result<Answer, Memory>
    ensures told { F.told files.new ≡ F.told files.old }
    ensures due { IfOk result (λ due. (words : List (List ℕ)) → Asks words (commands.check spec.now)
        → IsDue (F.told files.old) words (F.counts files.old) (F.counts files.new) due.status due.report.items) }
    ensures memory { IfErr result (λ _. NoFileCountFell (F.counts files.old) (F.counts files.new)) }
{
    match read_spec(alloc, files, spec) {
        Err(stop) => stopped(alloc, stop),
        Ok(spec) => Ok(Answer {
            status: Status::Done,
            report: print(alloc, spec.spec())?,
        }),
    }
}
