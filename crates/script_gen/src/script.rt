//! The generator of scripts.

ghost use Rattle.std.specs.Prelude.{◌≡◌, ◌+◌, ◌<◌, ◌≤◌, [], IfOk, OnOk};
ghost use Rattle.exchange_text.specs.ScriptText.{FitsScript};
ghost use Rattle.script_gen.specs.Generator.{script_of, sent_behind, step, steps};
ghost use Rattle.script_gen.specs.Paced.{ArePaced, sends_in};
ghost use Rattle.script_gen.specs.Ready.{IsMade, IsReady};

use crate::draft::Draft;
use crate::part::send_parts;
use crate::plan::Plan;
use crate::seen::plan_of;
use crate::words::Words;
use exchange_text::action::{Action, Part};
use exchange_text::script::Script;
use spec_model::Memory;
use spec_model::list::List;
use spec_rules::checked::Checked;
use std::alloc::Global;

/// The greatest number of steps.
pub const MAX_STEPS: u32 = 4096;

/// The number of the stream of a seed from which scripts are drawn.
const SCRIPT_STREAM: u64 = 0;

/// The script that is made of a specification and a seed, for so many of its connections (1 at least), in so many steps (`MAX_STEPS` at
/// most). Each step is a send, by a pattern of the specification, and mostly an await of as many messages as are sent on its connection:
/// on a connection no more than two sends stand together, and an await behind the second. So a script has twice as many actions as
/// steps at most, and its text can be read back. The same arguments give the same script on each machine.
pub fn script(
    alloc: Global,
    spec: &Checked,
    seed: u64,
    conns: u16,
    steps: u32,
) -> Result<Script, Memory>
    requires one_conn { 1 ≤ conns }
    requires conns_within { conns ≤ spec.now.shape.conns }
    requires steps_within { steps ≤ MAX_STEPS }
    ensures script { IfOk result (λ script. script ≡ script_of spec.now seed conns steps) }
    ensures fits { IfOk result (FitsScript spec.now.shape) }
    ensures sends { IfOk result (λ script. sends_in script.actions ≡ steps) }
    ensures paced { IfOk result (λ script. ArePaced script.actions) }
{
    let plan = plan_of(alloc, spec, conns)?;
    let mut words = Words::new(seed, SCRIPT_STREAM);
    made(alloc, &plan, &mut words, steps)
}

/// What so many steps make, with what is drawn from these words.
pub(crate) fn made(
    alloc: Global,
    plan: &Plan,
    words: &mut Words,
    count: u32,
) -> Result<Script, Memory>
    requires ready { IsReady plan.now }
    requires few { count ≤ MAX_STEPS }
    ensures script { IfOk result (λ script. script ≡ record { conns = plan.now.conns; actions = (steps plan.now count [] words.old).0 }) }
    ensures fits { IfOk result (FitsScript plan.now.shape) }
    ensures sends { IfOk result (λ script. sends_in script.actions ≡ count) }
    ensures paced { IfOk result (λ script. ArePaced script.actions) }
{
    let mut draft = Draft::new(alloc, plan.conns)?;
    for _ in 0..count {
        make_step(alloc, plan, words, &mut draft)?;
    }
    Ok(draft.into_script())
}

/// Makes one step more.
fn make_step(alloc: Global, plan: &Plan, words: &mut Words, draft: &mut Draft) -> Result<(), Memory>
    requires ready { IsReady plan.now }
    requires made { IsMade plan.now draft.old }
    requires few { sends_in draft.old.actions < MAX_STEPS }
    ensures actions { OnOk result (draft.new ≡ record draft.old { actions = (step plan.now draft.old.actions words.old).0 }) }
    ensures left { OnOk result (words.new ≡ (step plan.now draft.old.actions words.old).1) }
    ensures made { OnOk result (IsMade plan.now draft.new) }
    ensures one_send { OnOk result (sends_in draft.new.actions ≡ sends_in draft.old.actions + 1) }
{
    let conn = words.draw(usize::from(plan.conns)) as u16;
    let number = words.draw(plan.templates.len());
    let template = &plan.templates.as_slice()[number];
    let earlier = draft.tally(conn).sends;
    let parts = send_parts(alloc, plan, words, earlier, template.as_slice())?;
    let pause = words.draw(8);
    put_send(draft, conn, parts, pause)
}

/// Puts a send at the end, and mostly an await of as many messages as are sent on the connection.
fn put_send(draft: &mut Draft, conn: u16, parts: List<Part>, pause: usize) -> Result<(), Memory>
    requires there { conn < draft.old.conns }
    requires few { sends_in draft.old.actions < MAX_STEPS }
    ensures { OnOk result (draft.new ≡ record draft.old { actions = sent_behind draft.old.actions conn parts pause }) }
{
    let tally = draft.tally(conn);
    draft.put(conn, Action::Send(parts))?;
    if pause == 0 && !tally.ends_in_send {
        return Ok(());
    }
    draft.put(conn, Action::Await(tally.sends + 1))
}
