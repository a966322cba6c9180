//! What is bad in declarations.

ghost use Rattle.std.specs.Prelude.{◌≡◌, List, count_by};
ghost use Rattle.spec_model.specs.declared.tree.Decl.{Decl};
ghost use Rattle.spec_rules.specs.Bad.{declares_long_text, declares_past_conns, declares_register, declares_table, is_behind, is_declared_again};
ghost use Rattle.spec_check.specs.Decls.{IsBadDecl, decl_tests};
ghost use Rattle.spec_check.specs.Least.{IsFirst, IsListedAt};

use crate::found::{Found, Tested, earlier, first_listed};
use crate::values::is_long;
use spec_model::tree::{Decl, First};
use spec_rules::fault::{Fault, Limit};

/// The greatest number of registers.
const MOST_REGISTERS: usize = 64;
/// The greatest number of tables.
const MOST_TABLES: usize = 8;

/// Whether a name is declared before.
fn is_declared_again(before: &[Decl], decl: &Decl) -> bool
    ensures { result ≡ is_declared_again before.now decl.now }
{
    for other in before {
        if other.name == decl.name {
            return true;
        }
    }
    false
}

/// Whether a connection is declared that is none.
fn declares_past_conns(conns: u16, first: &First) -> bool
    ensures { (before : List Decl) → (decl : Decl) → decl.first ≡ first.now → result ≡ declares_past_conns conns before decl }
{
    match first {
        First::Conn(conn) => u64::from(conns) <= *conn,
        _ => false,
    }
}

/// Whether a text is declared that is too long.
fn declares_long_text(first: &First) -> bool
    ensures { (before : List Decl) → (decl : Decl) → decl.first ≡ first.now → result ≡ declares_long_text before decl }
{
    match first {
        First::Text(text) => is_long(text),
        _ => false,
    }
}

/// Whether a table is declared.
fn declares_table(decl: &Decl) -> bool
    ensures { result ≡ declares_table decl.now }
{
    matches!(decl.first, First::Table)
}

/// The number of tables.
fn tables(decls: &[Decl]) -> usize
    ensures { result ≡ count_by declares_table decls.now }
{
    decls.iter().filter(|decl| declares_table(decl)).count()
}

/// The number of registers.
fn registers(decls: &[Decl]) -> usize
    ensures { result ≡ count_by declares_register decls.now }
{
    decls.iter().filter(|decl| !declares_table(decl)).count()
}

/// Whether this is the declaration of the 65th register.
fn is_past_registers(before: &[Decl], decl: &Decl) -> bool
    ensures { result ≡ is_behind declares_register 64 before.now decl.now }
{
    !declares_table(decl) && registers(before) == MOST_REGISTERS
}

/// Whether this is the declaration of the ninth table.
fn is_past_tables(before: &[Decl], decl: &Decl) -> bool
    ensures { result ≡ is_behind declares_table 8 before.now decl.now }
{
    declares_table(decl) && tables(before) == MOST_TABLES
}

/// The first fault that stands at a declaration behind others.
fn decl_fault(conns: u16, before: &[Decl], decl: &Decl) -> Option<Found>
    ensures { IsFirst (IsListedAt (decl_tests conns before.now decl.now) decl.now.at) result }
{
    let tests = [
        Tested {
            fault: Fault::DoubleName,
            stands: is_declared_again(before, decl),
        },
        Tested {
            fault: Fault::Limit(Limit::WrittenConn),
            stands: declares_past_conns(conns, &decl.first),
        },
        Tested {
            fault: Fault::Limit(Limit::Registers),
            stands: is_past_registers(before, decl),
        },
        Tested {
            fault: Fault::Limit(Limit::Tables),
            stands: is_past_tables(before, decl),
        },
        Tested {
            fault: Fault::Limit(Limit::Text),
            stands: declares_long_text(&decl.first),
        },
    ];
    first_listed(&tests, decl.at)
}

/// The first fault in declarations.
pub fn decls_fault(conns: u16, decls: &[Decl]) -> Option<Found>
    ensures { IsFirst (IsBadDecl conns decls.now 0) result }
{
    let mut found = None;
    for (i, decl) in decls.iter().enumerate() {
        let here = decl_fault(conns, &decls[..i], decl);
        found = earlier(found, here);
    }
    found
}
