//! Steps: an event, and then all silent work.

ghost use Rattle.std.specs.Prelude.{◌≡◌, [], IfOk, MatchOption, None};
ghost use Rattle.dual_step.specs.State.{standing_of};
ghost use Rattle.dual_tree.specs.Dual.{tree_of};
ghost use Rattle.itree_data.specs.Run.{TreeSettles, TreeStep};
ghost use Rattle.itree_data.specs.Standing.{first_standing};
ghost use Rattle.itree_data.specs.Step.{after_event};

use crate::events::after_event;
use crate::silent::settled;
use crate::start::first_state;
use crate::state::State;
use dual_tree::dual::Dual;
use spec_model::Memory;
use spec_model::event::ServerEvent;
use std::alloc::Global;

/// The state from which a run begins, its first silent work done.
pub fn opening(alloc: Global, dual: &Dual) -> Result<State, Memory>
    ensures { IfOk result (λ state. TreeSettles (tree_of dual.now) (record (first_standing (tree_of dual.now)) { taken = [] }) (standing_of state)) }
{
    let first = first_state(alloc, dual)?;
    settled(alloc, dual, first)
}

/// The state to which a step with this event leads, or `None` where it is no step from here.
pub fn after_step(
    alloc: Global,
    dual: &Dual,
    state: &State,
    event: &ServerEvent,
) -> Result<Option<State>, Memory>
    ensures { IfOk result (λ next. MatchOption next
        (after_event (tree_of dual.now) (standing_of state.now) event.now ≡ None)
        (λ new. TreeStep (tree_of dual.now) (standing_of state.now) event.now (standing_of new))) }
{
    match after_event(alloc, dual, state, event)? {
        None => Ok(None),
        Some(middle) => {
            let new = settled(alloc, dual, middle)?;
            Ok(Some(new))
        }
    }
}
