//! The registers and tables that a specification declares.

ghost use Rattle.std.specs.Prelude.{◌≡◌, IfOk, filter, length};
ghost use Rattle.spec_rules.specs.Bad.{declares_table};
ghost use Rattle.itree_data.specs.Fields.{first_values};

use crate::resolve::is_table;
use spec_model::Memory;
use spec_model::copy::TryCopy;
use spec_model::list::List;
use spec_model::tree::{Decl, First};
use std::alloc::{AllocError, Global};

/// The first values of the registers, in the order of their numbers.
pub fn first_values(alloc: Global, decls: &[Decl]) -> Result<List<First>, Memory>
    ensures { IfOk result (λ firsts. firsts ≡ first_values decls.now) }
{
    let mut firsts = List::new(alloc);
    for decl in decls {
        if !is_table(decl) {
            firsts.push(decl.first.copy(alloc)?)?;
        }
    }
    Ok(firsts)
}

/// The number of tables. There are at most 8 in a specification that is accepted.
pub fn table_count(decls: &[Decl]) -> Result<u16, Memory>
    ensures { IfOk result (λ count. count ≡ length (filter declares_table decls.now)) }
{
    let mut count: u16 = 0;
    for decl in decls {
        if is_table(decl) {
            if count == u16::MAX {
                return Err(AllocError);
            }
            count += 1;
        }
    }
    Ok(count)
}
