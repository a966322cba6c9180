//! Making a script by the specification of a file.

ghost use Rattle.std.specs.Prelude.{◌≡◌, IfErr, IfOk, List, ℕ};
ghost use Rattle.dt_ports.specs.Files.{NoFileCountFell};
ghost use Rattle.dualtest_main.specs.Outcome.{IsDue};
ghost use Rattle.dualtest_main.specs.Report.{script_report};
ghost use Rattle.dualtest_main.specs.Words.{Asks, IsWithinBounds};
ghost use Rattle.dualtest_main.specs.Words as commands;

use crate::answer::{Answer, stopped};
use crate::reading::read_spec;
use crate::recipe::Recipe;
use crate::status::Status;
use dt_ports::files::Files;
use exchange_text::script::write_script;
use script_gen::script::script;
use spec_model::Memory;
use spec_rules::checked::Checked;
use std::alloc::Global;

/// What is due to `script` with this file and these numbers: the text of the script, where the file holds a specification that is
/// accepted. Nothing but it is read.
pub fn script_file<F: Files>(
    alloc: Global,
    files: &mut F,
    spec: &str,
    recipe: Recipe,
) -> Result<Answer, Memory>
    requires { IsWithinBounds recipe }
    ensures told { F.told files.new ≡ F.told files.old }
    ensures due { IfOk result (λ due. (words : List (List ℕ)) → Asks words (commands.script spec.now recipe)
        → IsDue (F.told files.old) words (F.counts files.old) (F.counts files.new) due.status due.report.items) }
    ensures memory { IfErr result (λ _. NoFileCountFell (F.counts files.old) (F.counts files.new)) }
{
    match read_spec(alloc, files, spec) {
        Err(stop) => stopped(alloc, stop),
        Ok(spec) => Ok(Answer {
            status: Status::Done,
            report: script_text(alloc, &spec, recipe)?,
        }),
    }
}

/// The text of the script. It has all connections of the specification, where these are fewer than are asked for.
fn script_text(alloc: Global, spec: &Checked, recipe: Recipe) -> Result<Vec<u8>, Memory>
    requires { IsWithinBounds recipe }
    ensures { IfOk result (λ text. text.items ≡ script_report spec.now recipe) }
{
    let conns = recipe.conns.min(spec.spec().shape.conns);
    let script = script(alloc, spec, recipe.seed, conns, recipe.steps)?;
    write_script(alloc, &script)
}
