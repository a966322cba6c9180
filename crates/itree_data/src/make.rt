//! How a tree is made.

ghost use Rattle.std.specs.Prelude.{◌≡◌, IfOk};
ghost use Rattle.itree_data.specs.Laws.{KeepsNames, KeepsPlaces, KeepsRuns, KeepsState};

use crate::tree::Tree;
use spec_model::Memory;
use spec_rules::checked::Checked;
use std::alloc::Global;

/// The tree of a specification. It makes the runs of the specification, stores the same, and two runs end at one place of the tree
/// exactly where the same is left to do. After an error, which is want of memory, the specification is given up.
pub fn tree(alloc: Global, spec: Checked) -> Result<Tree, Memory>
    ensures spec { IfOk result (λ tree. tree.spec ≡ spec) }
    ensures shape { IfOk result (λ tree. tree.shape ≡ spec.shape) }
    ensures runs { IfOk result KeepsRuns }
    ensures state { IfOk result KeepsState }
    ensures places { IfOk result KeepsPlaces }
    ensures names { IfOk result KeepsNames }
{
    let tree = Tree::of(alloc, spec)?;
    // The laws are those of every tree: the contract alone speaks of them.
    let _ = tree.spec();
    Ok(tree)
}
