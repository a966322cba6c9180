//! Nodes in the making.

ghost use Rattle.std.specs.Prelude.{◌≡◌, IfOk, length};
ghost use Rattle.itree_data.specs.Making.{Put};

use crate::node::Node;
use spec_model::Memory;
use spec_rules::names::Known;
use std::alloc::AllocError;

/// The nodes made so far, and for each the number of slots in scope there.
#[derive(Drop)]
pub struct Nodes {
    pub nodes: Vec<Node>,
    pub scopes: Vec<u16>,
}

/// The number of locals in scope, as slots are numbered. There are far fewer than 65,536 in a specification that is accepted.
pub fn slot_count(scope: &[Known]) -> Result<u16, Memory>
    ensures { IfOk result (λ count. count ≡ length scope.now) }
{
    match u16::try_from(scope.len()) {
        Ok(count) => Ok(count),
        Err(_) => Err(AllocError),
    }
}

/// Puts a node where these locals are in scope, and gives its number.
pub fn put(nodes: &mut Nodes, scope: &[Known], node: Node) -> Result<usize, Memory>
    ensures { IfOk result (Put nodes.old nodes.new node (length scope.now)) }
{
    let count = slot_count(scope)?;
    let number = nodes.nodes.len();
    nodes.nodes.push(node)?;
    nodes.scopes.push(count)?;
    Ok(number)
}
