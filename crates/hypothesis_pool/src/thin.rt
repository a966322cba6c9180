//! How a trail is kept thin.

ghost use Rattle.std.specs.Prelude.{◌≡◌, ◌+◌, ◌*◌, ◌<◌, ◌≤◌, ◌⊎◌, All, IfOk, OnErr, OnOk, length, map};
ghost use Rattle.hypothesis.specs.declared.hypothesis.Hypothesis.{Hypothesis};
ghost use Rattle.hypothesis_pool.specs.Thinning.{KeepTheirSkeletons, marks_in, with_steps};

use hypothesis::hypothesis::Hypothesis;
use spec_model::Memory;
use std::alloc::Global;
use trail_store::Trail;

/// Drops what none of the hypotheses needs from the trail, where it is at least twice as long as it was when that was done last. Then
/// it has at most one step more than their skeletons have marks, and until it is done next the trail gets no longer than twice that.
/// It takes time of the trail's length, so a constant for each step that was put there. After an error the trail is as it was.
pub fn keep_thin(
    alloc: Global,
    trail: &mut Trail,
    kept: &mut usize,
    hypotheses: &mut [Hypothesis],
) -> Result<(), Memory>
    requires { All (λ (h : Hypothesis). h.step < length trail.old) hypotheses.old }
    ensures skeletons { OnOk result (KeepTheirSkeletons trail.old trail.new hypotheses.old hypotheses.new) }
    ensures thin { OnOk result (length trail.new < 2 * kept.new) }
    ensures few { OnOk result ((kept.new ≡ kept.old) ⊎ (kept.new ≤ 1 + marks_in trail.old hypotheses.old)) }
    ensures err { OnErr result (trail.new ≡ trail.old) }
{
    if trail.len() / 2 < *kept {
        return Ok(());
    }
    let mut steps = steps_of(alloc, hypotheses)?;
    trail.keep_only(alloc, &mut steps)?;
    set_steps(hypotheses, &steps);
    *kept = trail.len();
    Ok(())
}

/// The steps of hypotheses.
fn steps_of(alloc: Global, hypotheses: &[Hypothesis]) -> Result<Vec<usize>, Memory>
    ensures { IfOk result (λ steps. steps.items ≡ map (λ (h : Hypothesis). h.step) hypotheses.now) }
{
    let mut steps = Vec::with_capacity(alloc, hypotheses.len())?;
    for hypothesis in hypotheses {
        steps.push(hypothesis.step())?;
    }
    Ok(steps)
}

/// Gives each hypothesis its step of these.
fn set_steps(hypotheses: &mut [Hypothesis], steps: &[usize])
    requires { length steps.now ≡ length hypotheses.old }
    ensures { hypotheses.new ≡ with_steps hypotheses.old steps.now }
{
    for (place, step) in steps.iter().enumerate() {
        hypotheses[place].set_step(*step);
    }
}
