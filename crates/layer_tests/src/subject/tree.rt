//! Tables of nodes: which nodes are made, in which order, where each leads, and how many slots are in scope there.

use anyhow::Result;
use itree_data::node::Node;
use itree_data::tree::Tree;
use std::alloc::Global;
use std::fmt::Write;

/// The kind of a node and the nodes to which it leads: of a take those of its cases and then of `other`.
fn node_line(alloc: Global, node: &Node) -> Result<String> {
    let mut line = String::new(alloc);
    match node {
        Node::Take { cases, next, .. } => {
            write!(line, "take")?;
            for case in cases.as_slice() {
                write!(line, " {}", case.next)?;
            }
            write!(line, " {next}")?;
        }
        Node::Send { next, .. } => write!(line, "send {next}")?,
        Node::Choose { next, .. } => write!(line, "choose {next}")?,
        Node::Branch { yes, no, .. } => write!(line, "branch {yes} {no:?}")?,
        Node::Fork { arms } => {
            write!(line, "fork")?;
            for arm in arms.as_slice() {
                write!(line, " {arm}")?;
            }
        }
        Node::Store { next, .. } => write!(line, "store {next}")?,
        Node::Back { next } => write!(line, "back {next}")?,
    }
    Ok(line)
}

/// The slots in scope at the node of a number and what the node is; or the number of the `root`, or that of all `slots`.
pub fn answer(alloc: Global, tree: &Tree, step: &str) -> Result<String> {
    if step == "root" {
        return Ok(format!(in alloc; "{}", tree.root())?);
    }
    if step == "slots" {
        return Ok(format!(in alloc; "{}", tree.slots())?);
    }
    let number: usize = step.parse()?;
    match (
        tree.nodes().as_slice().get(number),
        tree.scopes().as_slice().get(number),
    ) {
        (Some(node), Some(scope)) => {
            Ok(format!(in alloc; "{scope} {}", node_line(alloc, node)?)?)
        }
        _ => Ok(String::from_str(alloc, "none")?),
    }
}
