//! Where servers stand.

use crate::passed::Passed;
use crate::shared::Shared;
use spec_model::config::{Binding, Table, Task};
use spec_model::list::List;

/// Where a server stands: a configuration of which no history is in memory (`config_of`). What a step leaves as it was, the
/// states before and after it share. Definition: own.
#[derive(Debug, Drop)]
pub struct State {
    pub(crate) todo: List<Shared<Task>>,
    pub(crate) registers: List<Shared<Binding>>,
    pub(crate) tables: List<Shared<Table>>,
    /// The locals in scope, in the order in which they were bound.
    pub(crate) locals: List<Shared<Binding>>,
    pub(crate) passed: Passed,
}
