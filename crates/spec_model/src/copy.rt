//! Copies of specifications, of configurations and of worlds.

ghost use Rattle.std.specs.Prelude.{◌≡◌, IfOk};

use crate::Memory;
use crate::config::{Binding, Config, Pair, Table, Task, Value};
use crate::event::WorldEvent;
use crate::list::{Bytes, List};
use crate::tree::{Block, Case, Chan, Cond, Decl, Expr, First, Item, Kind, Sign, Spec, Stmt};
use sqlite_items::Items;
use std::alloc::Global;

/// Values that are copied where memory is found.
pub trait TryCopy: Drop + Sized {
    /// An equal value.
    fn copy(&self, alloc: Global) -> Result<Self, Memory>
        ensures { IfOk result (λ copy. copy ≡ self.now) };
}

/// A list of equal items.
pub fn copy_of<T: TryCopy>(alloc: Global, items: &[T]) -> Result<List<T>, Memory>
    ensures { IfOk result (λ copy. copy ≡ items.now) }
{
    let mut copy = List::new(alloc);
    for item in items {
        copy.push(item.copy(alloc)?)?;
    }
    Ok(copy)
}

impl TryCopy for Expr {
    fn copy(&self, alloc: Global) -> Result<Expr, Memory> {
        match self {
            Expr::Text(text) => Ok(Expr::Text(text.copy(alloc)?)),
            Expr::Num(number) => Ok(Expr::Num(*number)),
            Expr::Name(name) => Ok(Expr::Name(name.copy(alloc)?)),
        }
    }
}

impl TryCopy for Binding {
    fn copy(&self, alloc: Global) -> Result<Binding, Memory> {
        Ok(Binding {
            name: self.name.copy(alloc)?,
            value: self.value.copy(alloc)?,
        })
    }
}

impl TryCopy for Value {
    fn copy(&self, alloc: Global) -> Result<Value, Memory> {
        match self {
            Value::Text(text) => Ok(Value::Text(text.copy(alloc)?)),
            Value::Number(number) => Ok(Value::Number(*number)),
        }
    }
}

impl TryCopy for Pair {
    fn copy(&self, alloc: Global) -> Result<Pair, Memory> {
        Ok(Pair {
            key: self.key.copy(alloc)?,
            value: self.value.copy(alloc)?,
        })
    }
}

impl TryCopy for Table {
    fn copy(&self, alloc: Global) -> Result<Table, Memory> {
        Ok(Table {
            name: self.name.copy(alloc)?,
            pairs: copy_of(alloc, self.pairs.as_slice())?,
        })
    }
}

impl TryCopy for Item {
    fn copy(&self, alloc: Global) -> Result<Item, Memory> {
        match self {
            Item::Lit(text) => Ok(Item::Lit(text.copy(alloc)?)),
            Item::Hole(name, kind) => Ok(Item::Hole(name.copy(alloc)?, *kind)),
        }
    }
}

impl TryCopy for First {
    fn copy(&self, alloc: Global) -> Result<First, Memory> {
        match self {
            First::Text(text) => Ok(First::Text(text.copy(alloc)?)),
            First::Num(number) => Ok(First::Num(*number)),
            First::Conn(conn) => Ok(First::Conn(*conn)),
            First::Table => Ok(First::Table),
        }
    }
}

impl TryCopy for Decl {
    fn copy(&self, alloc: Global) -> Result<Decl, Memory> {
        Ok(Decl {
            at: self.at,
            name: self.name.copy(alloc)?,
            first: self.first.copy(alloc)?,
        })
    }
}

impl TryCopy for Chan {
    fn copy(&self, alloc: Global) -> Result<Chan, Memory> {
        match self {
            Chan::Bind(name) => Ok(Chan::Bind(name.copy(alloc)?)),
            Chan::From(conn) => Ok(Chan::From(conn.copy(alloc)?)),
        }
    }
}

impl TryCopy for Cond {
    fn copy(&self, alloc: Global) -> Result<Cond, Memory> {
        Ok(Cond {
            left: self.left.copy(alloc)?,
            op: self.op,
            right: self.right.copy(alloc)?,
        })
    }
}

/// An equal end of a sum or difference, if there is one.
fn copy_tail(alloc: Global, tail: &Option<(Sign, Expr)>) -> Result<Option<(Sign, Expr)>, Memory>
    ensures { IfOk result (λ copy. copy ≡ tail.now) }
{
    match tail {
        None => Ok(None),
        Some((sign, right)) => Ok(Some((*sign, right.copy(alloc)?))),
    }
}

/// An equal block.
#[cycle(copy)]
fn copy_block(alloc: Global, block: &Block) -> Result<Block, Memory>
    ensures { IfOk result (λ copy. copy ≡ block.now) }
{
    let mut stmts = Items::new(alloc);
    for stmt in block.stmts.as_slice() {
        stmts.push(copy_stmt(alloc, stmt)?)?;
    }
    Ok(Block {
        at: block.at,
        stmts,
    })
}

/// An equal statement.
#[cycle(copy)]
fn copy_stmt(alloc: Global, stmt: &Stmt) -> Result<Stmt, Memory>
    ensures { IfOk result (λ copy. copy ≡ stmt.now) }
{
    Ok(Stmt {
        at: stmt.at,
        kind: copy_kind(alloc, &stmt.kind)?,
    })
}

#[cycle(copy)]
fn copy_kind(alloc: Global, kind: &Kind) -> Result<Kind, Memory>
    ensures { IfOk result (λ copy. copy ≡ kind.now) }
{
    match kind {
        Kind::Recv {
            chan,
            cases,
            other,
            rest,
        } => Ok(Kind::Recv {
            chan: chan.copy(alloc)?,
            cases: copy_cases(alloc, cases)?,
            other: other.copy(alloc)?,
            rest: copy_block(alloc, rest)?,
        }),
        Kind::Send { conn, parts } => Ok(Kind::Send {
            conn: conn.copy(alloc)?,
            parts: copy_of(alloc, parts.as_slice())?,
        }),
        Kind::Pick {
            name,
            len,
            alphabet,
        } => Ok(Kind::Pick {
            name: name.copy(alloc)?,
            len: *len,
            alphabet: *alphabet,
        }),
        Kind::Assign { name, left, tail } => Ok(Kind::Assign {
            name: name.copy(alloc)?,
            left: left.copy(alloc)?,
            tail: copy_tail(alloc, tail)?,
        }),
        Kind::If { cond, yes, no } => Ok(Kind::If {
            cond: cond.copy(alloc)?,
            yes: copy_block(alloc, yes)?,
            no: copy_block(alloc, no)?,
        }),
        Kind::Either { arms } => Ok(Kind::Either {
            arms: copy_arms(alloc, arms)?,
        }),
        Kind::Assume { cond } => Ok(Kind::Assume {
            cond: cond.copy(alloc)?,
        }),
        Kind::Put { table, key, value } => Ok(Kind::Put {
            table: table.copy(alloc)?,
            key: key.copy(alloc)?,
            value: value.copy(alloc)?,
        }),
        Kind::Lookup {
            table,
            key,
            name,
            found,
            missing,
        } => Ok(Kind::Lookup {
            table: table.copy(alloc)?,
            key: key.copy(alloc)?,
            name: name.copy(alloc)?,
            found: copy_block(alloc, found)?,
            missing: copy_block(alloc, missing)?,
        }),
        Kind::Delete { table, key } => Ok(Kind::Delete {
            table: table.copy(alloc)?,
            key: key.copy(alloc)?,
        }),
    }
}

#[cycle(copy)]
fn copy_cases(alloc: Global, cases: &Items<Case>) -> Result<Items<Case>, Memory>
    ensures { IfOk result (λ copy. copy ≡ cases.now) }
{
    let mut copies = Items::new(alloc);
    for case in cases.as_slice() {
        copies.push(Case {
            items: copy_of(alloc, case.items.as_slice())?,
            block: copy_block(alloc, &case.block)?,
        })?;
    }
    Ok(copies)
}

#[cycle(copy)]
fn copy_arms(alloc: Global, arms: &Items<Block>) -> Result<Items<Block>, Memory>
    ensures { IfOk result (λ copy. copy ≡ arms.now) }
{
    let mut copies = Items::new(alloc);
    for arm in arms.as_slice() {
        copies.push(copy_block(alloc, arm)?)?;
    }
    Ok(copies)
}

impl TryCopy for Block {
    fn copy(&self, alloc: Global) -> Result<Block, Memory> {
        copy_block(alloc, self)
    }
}

impl TryCopy for Stmt {
    fn copy(&self, alloc: Global) -> Result<Stmt, Memory> {
        copy_stmt(alloc, self)
    }
}

/// An equal block, if there is one.
fn copy_start(alloc: Global, start: &Option<Block>) -> Result<Option<Block>, Memory>
    ensures { IfOk result (λ copy. copy ≡ start.now) }
{
    match start {
        None => Ok(None),
        Some(block) => Ok(Some(block.copy(alloc)?)),
    }
}

impl TryCopy for Spec {
    fn copy(&self, alloc: Global) -> Result<Spec, Memory> {
        Ok(Spec {
            shape: self.shape,
            frame_at: self.frame_at,
            conns_at: self.conns_at,
            decls: copy_of(alloc, self.decls.as_slice())?,
            start: copy_start(alloc, &self.start)?,
            body: self.body.copy(alloc)?,
        })
    }
}

impl TryCopy for Task {
    fn copy(&self, alloc: Global) -> Result<Task, Memory> {
        match self {
            Task::Do(stmt, passed) => Ok(Task::Do(stmt.copy(alloc)?, *passed)),
            Task::Forget(count) => Ok(Task::Forget(*count)),
        }
    }
}

impl TryCopy for Bytes {
    fn copy(&self, alloc: Global) -> Result<Bytes, Memory> {
        List::from_slice(alloc, self.as_slice())
    }
}

impl TryCopy for List<Bytes> {
    fn copy(&self, alloc: Global) -> Result<List<Bytes>, Memory> {
        copy_of(alloc, self.as_slice())
    }
}

impl TryCopy for List<List<Bytes>> {
    fn copy(&self, alloc: Global) -> Result<List<List<Bytes>>, Memory> {
        copy_of(alloc, self.as_slice())
    }
}

impl TryCopy for Config {
    fn copy(&self, alloc: Global) -> Result<Config, Memory> {
        Ok(Config {
            todo: copy_of(alloc, self.todo.as_slice())?,
            registers: copy_of(alloc, self.registers.as_slice())?,
            tables: copy_of(alloc, self.tables.as_slice())?,
            locals: copy_of(alloc, self.locals.as_slice())?,
            taken: copy_of(alloc, self.taken.as_slice())?,
            sent: copy_of(alloc, self.sent.as_slice())?,
        })
    }
}

impl TryCopy for WorldEvent {
    fn copy(&self, alloc: Global) -> Result<WorldEvent, Memory> {
        WorldEvent::copy(self, alloc)
    }
}
