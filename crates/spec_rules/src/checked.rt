//! Specifications that are accepted.

ghost use Rattle.std.specs.Prelude.{◌≡◌, IfOk};
ghost use Rattle.spec_rules.specs.Accepted.{IsAccepted};

use spec_model::Memory;
use spec_model::copy::TryCopy;
use spec_model::tree::Spec;
use std::alloc::Global;
use std::marker::Model;

/// A specification that is accepted: some text spells it, and nothing is bad in it. A contract sees it as its tree. Definition: own.
#[derive(Debug, Drop)]
pub struct Checked {
    spec: Spec,
}

impl Model for Checked {
    ghost use Rattle.spec_model.specs.declared.tree.Spec.{Spec};
    ghost use Rattle.spec_model.specs.contracts.tree.Block as block;
    ghost use Rattle.std.specs.Coded.{codes};
    ghost use Rattle.spec_rules.specs.Accepted.{IsAccepted};

    ghost Value = { Spec };

    ghost coded = { Prim.hlevel (codes, block.the_row.coded) };

    ghost view = { λ checked. checked.spec };

    ghost invariant = { λ checked. IsAccepted checked.spec };
}

impl Checked {
    /// Keeps that the tree is accepted.
    pub fn of(spec: Spec) -> Checked
        requires { IsAccepted spec }
        ensures { result ≡ spec }
    {
        Checked { spec }
    }

    /// The tree.
    pub fn spec(&self) -> &Spec
        ensures same { result.now ≡ self.now }
        ensures accepted { IsAccepted self.now }
    {
        &self.spec
    }

    /// A copy, which has an equal tree.
    pub fn copy(&self, alloc: Global) -> Result<Checked, Memory>
        ensures { IfOk result (λ copy. copy ≡ self.now) }
    {
        let spec = self.spec.copy(alloc)?;
        Ok(Checked { spec })
    }
}
