//! What the parts of a send make of the messages that were received.

use anyhow::{Result, bail};
use exchange_text::action::{Action, Part, resolve};
use exchange_text::script::{Script, read_script};
use spec_model::event::{Framing, Shape};
use spec_model::list::{Bytes, List};
use std::alloc::Global;
use test_rows::{quoted, text_of};

/// The shape in which parts may have any bytes, and as many of them as ever.
const WIDE: Shape = Shape {
    framing: Framing::Len16,
    limit: u16::MAX,
    conns: 1,
};

/// The messages between quotes, in the order in which they were received.
pub fn begin(alloc: Global, made_of: &str) -> Result<Vec<Bytes>> {
    let mut receipts = Vec::new(alloc);
    for quotation in made_of.split_whitespace() {
        receipts.push(text_of(alloc, quotation)?)?;
    }
    Ok(receipts)
}

/// The parts of a send, as its line has them.
fn parts(alloc: Global, written: &str) -> Result<List<Part>> {
    let text = format!(in alloc; "script 1\nconns 1\n0 send {written}\nend\n")?;
    let Script { actions, .. } = read_script(alloc, &WIDE, text.as_bytes())?;
    match actions.into_vec().pop() {
        Some((_, Action::Send(parts))) => Ok(parts),
        _ => bail!("no send"),
    }
}

/// The message that parts make.
pub fn answer(alloc: Global, receipts: &[Bytes], step: &str) -> Result<String> {
    let parts = parts(alloc, step)?;
    let message = resolve(alloc, parts.as_slice(), receipts)?;
    quoted(alloc, message.as_slice())
}
