//! Values that several states share.

ghost use Rattle.std.specs.Prelude.{◌≡◌, IfOk};

use spec_model::Memory;
use spec_model::copy::TryCopy;
use std::alloc::{AllocError, Global};
use std::marker::Model;
use std::rc::Rc;

/// A value that several owners share, none of whom changes it. A contract sees it as the value. Definition: own.
#[derive(Debug, Drop)]
pub struct Shared<T> {
    owner: Rc<T>,
}

impl<T> Model for Shared<T> {
    ghost use Rattle.std.specs.Rc.{rc_value};

    ghost Value = { T };

    ghost coded = { T.code };

    ghost view = { λ shared. rc_value shared.owner };
}

impl<T: Drop> Shared<T> {
    /// The value, with one owner.
    pub fn new(alloc: Global, value: T) -> Result<Shared<T>, Memory>
        ensures { IfOk result (λ shared. shared ≡ value) }
    {
        match Rc::new(alloc, value) {
            Ok(owner) => Ok(Shared { owner }),
            Err(_) => Err(AllocError),
        }
    }

    /// The value.
    pub fn get(&self) -> &T
        ensures { result.now ≡ self.now }
    {
        self.owner.as_ref()
    }
}

/// One owner more.
impl<T: Drop> TryCopy for Shared<T> {
    fn copy(&self, _alloc: Global) -> Result<Shared<T>, Memory> {
        let owner = self.owner.clone()?;
        Ok(Shared { owner })
    }
}
