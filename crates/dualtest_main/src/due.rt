//! What is due to the words.

ghost use Rattle.std.specs.Prelude.{◌≡◌, IfErr, IfOk, map, string_bytes};
ghost use Rattle.dt_ports.specs.Files.{NoFileCountFell};
ghost use Rattle.dualtest_main.specs.Outcome.{IsDue};

use crate::answer::Answer;
use crate::check::check_file;
use crate::command::{Command, asked};
use crate::judge::judge_files;
use crate::replay::replay_files;
use crate::report;
use crate::script::script_file;
use crate::status::Status;
use dt_ports::files::Files;
use spec_model::Memory;
use std::alloc::Global;

/// What is due to the words. Nothing but the files that they name is read.
pub fn due<F: Files>(alloc: Global, words: &[String], files: &mut F) -> Result<Answer, Memory>
    ensures told { F.told files.new ≡ F.told files.old }
    ensures due { IfOk result (λ due. IsDue (F.told files.old) (map string_bytes words.now) (F.counts files.old) (F.counts files.new) due.status due.report.items) }
    ensures memory { IfErr result (λ _. NoFileCountFell (F.counts files.old) (F.counts files.new)) }
{
    match asked(words) {
        None => Ok(Answer {
            status: Status::Usage,
            report: report::usage(alloc)?,
        }),
        Some(Command::Check(spec)) => check_file(alloc, files, spec),
        Some(Command::Judge(spec, exchange)) => judge_files(alloc, files, spec, exchange),
        Some(Command::Replay(spec, exchange, world)) => {
            replay_files(alloc, files, spec, exchange, world)
        }
        Some(Command::Script(spec, recipe)) => script_file(alloc, files, spec, recipe),
    }
}
