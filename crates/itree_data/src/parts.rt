//! What a tree stores, taken apart.

use crate::node::Node;
use spec_model::event::Shape;
use spec_model::list::List;
use spec_model::tree::First;
use spec_rules::checked::Checked;

/// What a tree stored.
#[derive(Debug, Drop)]
pub struct Parts {
    pub shape: Shape,
    pub registers: List<First>,
    pub tables: u16,
    pub slots: u16,
    pub nodes: List<Node>,
    pub scopes: List<u16>,
    pub root: usize,
    pub spec: Checked,
}
