//! The state from which a run begins.

ghost use Rattle.std.specs.Prelude.{◌≡◌, [], IfOk, filter_map};
ghost use Rattle.spec_model.specs.Config.{first_value};
ghost use Rattle.dual_step.specs.State.{standing_of};
ghost use Rattle.dual_tree.specs.Dual.{tree_of};
ghost use Rattle.itree_data.specs.Standing.{first_standing};

use crate::state::State;
use dual_tree::dual::Dual;
use spec_model::Memory;
use spec_model::config::Value;
use spec_model::list::{List, empty_lists};
use spec_model::tree::First;
use spec_model::value::first_value;
use std::alloc::Global;

/// The values that registers begin with.
fn first_values(alloc: Global, firsts: &[First]) -> Result<List<Value>, Memory>
    ensures { IfOk result (λ values. values ≡ filter_map first_value firsts.now) }
{
    let mut values = List::new(alloc);
    for first in firsts {
        values.push_some(first_value(alloc, first)?)?;
    }
    Ok(values)
}

/// The state from which a run begins, before the silent work.
pub fn first_state(alloc: Global, dual: &Dual) -> Result<State, Memory>
    ensures { IfOk result (λ state. standing_of state ≡ record (first_standing (tree_of dual.now)) { taken = [] }) }
{
    Ok(State {
        node: dual.root(),
        compared: 0,
        registers: first_values(alloc, dual.registers().as_slice())?,
        tables: empty_lists(alloc, dual.tables())?,
        locals: List::new(alloc),
        pending: empty_lists(alloc, dual.shape().conns)?,
    })
}
