//! Duals.

ghost use Rattle.std.specs.Prelude.{◌≡◌, IfOk, map};
ghost use Rattle.itree_data.specs.Marks.{IsTree};
ghost use Rattle.dual_tree.specs.Dual.{mirrored, tree_of};
ghost use Rattle.spec_rules.specs.Accepted.{IsAccepted};

use crate::node::{DualNode, mirror};
use itree_data::node::Node;
use itree_data::parts::Parts;
use itree_data::tree::Tree;
use spec_model::Memory;
use spec_model::event::Shape;
use spec_model::list::List;
use spec_model::tree::First;
use spec_rules::checked::Checked;
use std::alloc::Global;
use std::marker::Model;

/// The dual of the tree of a specification: a table of nodes, each of which mirrors the node of its number. It keeps the
/// specification, which no call shows, so that its users can go along the nodes alone. A contract sees it as its fields.
/// Definition: after Li, Pierce and Zdancewic, 2021, in outline.
#[derive(Debug, Drop)]
pub struct Dual {
    shape: Shape,
    registers: List<First>,
    tables: u16,
    slots: u16,
    nodes: List<DualNode>,
    scopes: List<u16>,
    root: usize,
    spec: Checked,
}

impl Model for Dual {
    ghost use Rattle.dual_tree.specs.Dual.{DualFields, IsDual};
    ghost use Rattle.spec_model.specs.contracts.tree.Block as block;
    ghost use Rattle.std.specs.Coded.{codes};

    ghost Value = { DualFields };

    ghost coded = { Prim.hlevel (codes, block.the_row.coded) };

    ghost view = { λ dual. record { shape = dual.shape; registers = dual.registers; tables = dual.tables; slots = dual.slots; nodes = dual.nodes; scopes = dual.scopes; root = dual.root; spec = dual.spec } };

    ghost invariant = { λ dual. IsDual (record { shape = dual.shape; registers = dual.registers; tables = dual.tables; slots = dual.slots; nodes = dual.nodes; scopes = dual.scopes; root = dual.root; spec = dual.spec }) };
}

impl Dual {
    /// The dual of a tree, with the tree's specification. After an error, which is want of memory, the tree is given up.
    pub fn of(alloc: Global, tree: Tree) -> Result<Dual, Memory>
        ensures { IfOk result (λ dual. tree_of dual ≡ tree) }
    {
        let Parts {
            shape,
            registers,
            tables,
            slots,
            nodes,
            scopes,
            root,
            spec,
        } = tree.into_parts();
        let nodes = mirrors(alloc, nodes.into_vec())?;
        Ok(Dual {
            shape,
            registers,
            tables,
            slots,
            nodes,
            scopes,
            root,
            spec,
        })
    }

    /// How messages are delimited, how long they may be, and how many connections there are. It takes no memory.
    pub fn shape(&self) -> Shape
        ensures { result ≡ self.now.shape }
    {
        self.shape
    }

    /// The first values of the registers, in the order of their numbers. It takes no memory.
    pub fn registers(&self) -> &List<First>
        ensures { result.now ≡ self.now.registers }
    {
        &self.registers
    }

    /// The number of tables. It takes no memory.
    pub fn tables(&self) -> u16
        ensures { result ≡ self.now.tables }
    {
        self.tables
    }

    /// All slots are below this number. It takes no memory.
    pub fn slots(&self) -> u16
        ensures { result ≡ self.now.slots }
    {
        self.slots
    }

    /// The nodes, in the order of their numbers: those that mirror the nodes of the tree of the specification, which is accepted. It
    /// takes no memory.
    pub fn nodes(&self) -> &List<DualNode>
        ensures same { result.now ≡ self.now.nodes }
        ensures tree { IsTree (tree_of self.now) }
        ensures accepted { IsAccepted self.now.spec }
    {
        // What is kept is known to be accepted: the contract alone speaks of it.
        let _ = self.spec.spec();
        &self.nodes
    }

    /// For each node the number of slots in scope there. It takes no memory.
    pub fn scopes(&self) -> &List<u16>
        ensures { result.now ≡ self.now.scopes }
    {
        &self.scopes
    }

    /// The number of the node at which a run begins. It takes no memory.
    pub fn root(&self) -> usize
        ensures { result ≡ self.now.root }
    {
        self.root
    }
}

/// The nodes that mirror these.
fn mirrors(alloc: Global, nodes: Vec<Node>) -> Result<List<DualNode>, Memory>
    ensures { IfOk result (λ duals. map mirrored duals ≡ nodes.items) }
{
    let mut duals = List::new(alloc);
    for node in nodes {
        duals.push(mirror(node))?;
    }
    Ok(duals)
}
