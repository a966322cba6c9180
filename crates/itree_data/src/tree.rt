//! Trees.

ghost use Rattle.std.specs.Prelude.{◌≡◌, IfOk};
ghost use Rattle.itree_data.specs.Laws.{KeepsNames, KeepsPlaces, KeepsRuns, KeepsState};
ghost use Rattle.itree_data.specs.Marks.{IsCompiled, IsTree};

use crate::firsts::{first_values, table_count};
use crate::node::Node;
use crate::nodes::Nodes;
use crate::parts::Parts;
use crate::slots::slots_needed;
use crate::whole::{Whole, nodes_of};
use spec_model::Memory;
use spec_model::event::Shape;
use spec_model::list::List;
use spec_model::tree::First;
use spec_rules::checked::Checked;
use std::alloc::Global;
use std::marker::Model;

/// The tree of a specification: a table of nodes, each of which names the nodes that are next by their numbers. A tree makes the
/// runs of its specification, stands at the same place where the specification has the same left to do, and has stored the same
/// by number and slot. A contract sees it as its fields. Definition: own, after Xia and others, 2020.
#[derive(Debug, Drop)]
pub struct Tree {
    shape: Shape,
    registers: List<First>,
    tables: u16,
    slots: u16,
    nodes: List<Node>,
    scopes: List<u16>,
    root: usize,
    spec: Checked,
}

impl Model for Tree {
    ghost use Rattle.itree_data.specs.Fields.{Fields};
    ghost use Rattle.itree_data.specs.Marks.{IsTree};
    ghost use Rattle.spec_model.specs.contracts.tree.Block as block;
    ghost use Rattle.std.specs.Coded.{codes};

    ghost Value = { Fields };

    ghost coded = { Prim.hlevel (codes, block.the_row.coded) };

    ghost view = { λ tree. record { shape = tree.shape; registers = tree.registers; tables = tree.tables; slots = tree.slots; nodes = tree.nodes; scopes = tree.scopes; root = tree.root; spec = tree.spec } };

    ghost invariant = { λ tree. IsTree (record { shape = tree.shape; registers = tree.registers; tables = tree.tables; slots = tree.slots; nodes = tree.nodes; scopes = tree.scopes; root = tree.root; spec = tree.spec }) };
}

impl Tree {
    /// The tree of a specification. After an error, which is want of memory, the specification is given up.
    pub fn of(alloc: Global, spec: Checked) -> Result<Tree, Memory>
        ensures spec { IfOk result (λ tree. tree.spec ≡ spec) }
        ensures shape { IfOk result (λ tree. tree.shape ≡ spec.shape) }
    {
        let Whole { nodes, root } = nodes_of(alloc, spec.spec())?;
        let registers = first_values(alloc, spec.spec().decls.as_slice())?;
        let tables = table_count(spec.spec().decls.as_slice())?;
        let shape = spec.spec().shape;
        let Nodes { nodes, scopes } = nodes;
        let slots = slots_needed(scopes.as_slice(), nodes.as_slice())?;
        Ok(Tree {
            shape,
            registers,
            tables,
            slots,
            nodes: List::from_vec(nodes),
            scopes: List::from_vec(scopes),
            root,
            spec,
        })
    }

    /// How messages are delimited, how long they may be, and how many connections there are. It takes no memory.
    pub fn shape(&self) -> Shape
        ensures { result ≡ self.now.shape }
    {
        self.shape
    }

    /// The first values of the registers, in the order of their numbers. It takes no memory.
    pub fn registers(&self) -> &List<First>
        ensures { result.now ≡ self.now.registers }
    {
        &self.registers
    }

    /// The number of tables. It takes no memory.
    pub fn tables(&self) -> u16
        ensures { result ≡ self.now.tables }
    {
        self.tables
    }

    /// At least the number of slots in scope at each node, and more than each slot that a node binds. It takes no memory.
    pub fn slots(&self) -> u16
        ensures { result ≡ self.now.slots }
    {
        self.slots
    }

    /// The nodes, in the order of their numbers. It takes no memory.
    pub fn nodes(&self) -> &List<Node>
        ensures { result.now ≡ self.now.nodes }
    {
        &self.nodes
    }

    /// For each node the number of slots in scope there. It takes no memory.
    pub fn scopes(&self) -> &List<u16>
        ensures { result.now ≡ self.now.scopes }
    {
        &self.scopes
    }

    /// The number of the node at which a run begins. It takes no memory.
    pub fn root(&self) -> usize
        ensures { result ≡ self.now.root }
    {
        self.root
    }

    /// The specification, and what the tree keeps of it: its runs, what is stored at their ends, the places at which they end, and
    /// the names bound there; and how the nodes stand for its statements. It takes no memory.
    pub fn spec(&self) -> &Checked
        ensures same { result.now ≡ self.now.spec }
        ensures runs { KeepsRuns self.now }
        ensures state { KeepsState self.now }
        ensures places { KeepsPlaces self.now }
        ensures names { KeepsNames self.now }
        ensures compiled { IsCompiled self.now }
    {
        &self.spec
    }

    /// Takes the tree apart: what it stored, which is a tree of its specification. It takes no memory.
    pub fn into_parts(self) -> Parts
        ensures same { record { shape = result.shape; registers = result.registers; tables = result.tables; slots = result.slots; nodes = result.nodes; scopes = result.scopes; root = result.root; spec = result.spec } ≡ self }
        ensures tree { IsTree self }
    {
        let Tree {
            shape,
            registers,
            tables,
            slots,
            nodes,
            scopes,
            root,
            spec,
        } = self;
        Parts {
            shape,
            registers,
            tables,
            slots,
            nodes,
            scopes,
            root,
            spec,
        }
    }

    /// Gives the specification back. It takes no memory.
    pub fn into_spec(self) -> Checked
        ensures { result ≡ self.spec }
    {
        let Tree {
            shape: _,
            registers: _,
            tables: _,
            slots: _,
            nodes: _,
            scopes: _,
            root: _,
            spec,
        } = self;
        spec
    }
}
