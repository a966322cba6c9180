//! The nodes of a whole specification.

ghost use Rattle.std.specs.Prelude.{[], IfOk};
ghost use Rattle.spec_model.specs.Config.{stmts_of};
ghost use Rattle.spec_rules.specs.Bad.{stmt_places};
ghost use Rattle.itree_data.specs.Making.{AreInOrder, AreNodesOf, AreSound, IsBegun, IsStartSound, MakesStart};

use crate::compile::statements;
use crate::node::Node;
use crate::nodes::Nodes;
use spec_model::Memory;
use spec_model::tree::{Block, Decl, Spec};
use std::alloc::Global;

/// The nodes of a specification.
#[derive(Drop)]
pub struct Whole {
    pub nodes: Nodes,
    /// The number of the node at which a run begins.
    pub root: usize,
}

/// Node 0, which is done at the end of `start` and of each turn of the loop.
fn begun(alloc: Global) -> Result<Nodes, Memory>
    ensures { IfOk result IsBegun }
{
    let mut nodes = Vec::new(alloc);
    nodes.push(Node::Back { next: 0 })?;
    let mut scopes = Vec::new(alloc);
    scopes.push(0)?;
    Ok(Nodes { nodes, scopes })
}

/// The nodes of `start`; gives the number of the first.
fn start_nodes(
    alloc: Global,
    decls: &[Decl],
    nodes: &mut Nodes,
    start: &Option<Block>,
) -> Result<usize, Memory>
    requires { IsStartSound decls.now start.now }
    ensures { IfOk result (MakesStart decls.now start.now nodes.old nodes.new) }
{
    match start {
        None => Ok(0),
        Some(block) => {
            let scope = Vec::new(alloc);
            let first = statements(alloc, decls, nodes, scope.as_slice(), &block.stmts, 0)?;
            Ok(first)
        }
    }
}

/// The nodes of a specification: node 0, then those of the loop, then those of `start`.
pub fn nodes_of(alloc: Global, spec: &Spec) -> Result<Whole, Memory>
    requires order { AreInOrder (stmt_places spec.now) }
    requires body { AreSound spec.now.decls [] (stmts_of spec.now.body) }
    requires start { IsStartSound spec.now.decls spec.now.start }
    ensures { IfOk result (λ whole. AreNodesOf spec.now whole.nodes whole.root) }
{
    let decls = spec.decls.as_slice();
    let scope = Vec::new(alloc);
    let mut nodes = begun(alloc)?;
    let first = statements(
        alloc,
        decls,
        &mut nodes,
        scope.as_slice(),
        &spec.body.stmts,
        0,
    )?;
    let root = start_nodes(alloc, decls, &mut nodes, &spec.start)?;
    nodes.nodes[0] = Node::Back { next: first };
    Ok(Whole { nodes, root })
}
