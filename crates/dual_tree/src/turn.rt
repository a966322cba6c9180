//! How a tree is turned round.

ghost use Rattle.std.specs.Prelude.{◌≡◌, IfOk};
ghost use Rattle.dual_tree.specs.Dual.{IsDual, tree_of};

use crate::dual::Dual;
use itree_data::make::tree;
use itree_data::tree::Tree;
use spec_model::Memory;
use spec_rules::checked::Checked;
use std::alloc::Global;

/// The dual of a tree, with the tree's specification: each node mirrors the node of its number. After an error, which is want of
/// memory, the tree is given up.
pub fn dualize(alloc: Global, tree: Tree) -> Result<Dual, Memory>
    ensures mirrors { IfOk result (λ dual. tree_of dual ≡ tree) }
    ensures dual { IfOk result IsDual }
{
    let dual = Dual::of(alloc, tree)?;
    // What it mirrors is the tree of its specification: the contract alone speaks of it.
    let _ = dual.nodes();
    Ok(dual)
}

/// The dual of the tree of a specification. After an error, which is want of memory, the specification is given up.
pub fn dual_of(alloc: Global, spec: Checked) -> Result<Dual, Memory>
    ensures spec { IfOk result (λ dual. dual.spec ≡ spec) }
    ensures shape { IfOk result (λ dual. dual.shape ≡ spec.shape) }
    ensures dual { IfOk result IsDual }
{
    let tree = tree(alloc, spec)?;
    dualize(alloc, tree)
}
