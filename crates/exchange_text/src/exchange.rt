//! The texts of exchanges.

ghost use Rattle.std.specs.Prelude.{◌≡◌, ◌<◌, ◌^◌, IfErr, IfOk, IsErrAnd, List, MatchResult};
ghost use Rattle.spec_model.specs.declared.event.ClientEvent.{ClientEvent};
ghost use Rattle.exchange_text.specs.EventLine.{client_line};
ghost use Rattle.exchange_text.specs.ExchangeText.{FitsShape, IsExchangeRefused, Spells};
ghost use Rattle.exchange_text.specs.Text.{UnlessMemory};
ghost use Rattle.exchange_text.specs.declared.refusal.TextRefusal.{TextRefusal};
ghost use Rattle.exchange_text.specs.declared.refusal.TextRefusal.TheVariants.{Memory};

use crate::client_line::{put_client_event, read_client_event};
use crate::line::{behind_first_line, next_event_line};
use crate::refusal::TextRefusal;
use spec_model::Memory;
use spec_model::event::{ClientEvent, Shape};
use std::alloc::Global;

/// The greatest number of events in the text of an exchange.
pub const MAX_EXCHANGE_EVENTS: usize = 4096;

/// The exchange that a text spells. It is of the shape, and has at most `MAX_EXCHANGE_EVENTS` events. An error other than
/// `Memory` is the refusal of the text, at the first line that cannot be read.
pub fn read_exchange(
    alloc: Global,
    shape: &Shape,
    text: &[u8],
) -> Result<Vec<ClientEvent>, TextRefusal>
    ensures found { IfOk result (λ exchange. FitsShape shape.now exchange.items × Spells text.now exchange.items) }
    ensures only { (exchange : List ClientEvent) → FitsShape shape.now exchange → Spells text.now exchange →
        MatchResult result (λ read. read.items ≡ exchange) (λ error. error ≡ Memory) }

    ensures refused { IfErr result (λ error. UnlessMemory error (IsExchangeRefused shape.now text.now error)) }
    ensures only_refused { (refusal : TextRefusal) → IsExchangeRefused shape.now text.now refusal →
        IsErrAnd result (λ error. UnlessMemory error (error ≡ refusal)) }
{
    read_lines(alloc, *shape, text)
}

/// The exchange that a text spells, line by line. `range` tells callers what a connection's type says.
fn read_lines(alloc: Global, shape: Shape, text: &[u8]) -> Result<Vec<ClientEvent>, TextRefusal>
    ensures found { IfOk result (λ exchange. FitsShape shape exchange.items × Spells text.now exchange.items) }
    ensures refused { IfErr result (λ error. UnlessMemory error (IsExchangeRefused shape text.now error)) }
    ensures range { shape.conns < 2 ^ 16 }
{
    let mut rest = behind_first_line(text, b"exchange 1")?;
    let mut exchange = Vec::new(alloc);
    loop {
        let number = exchange.len() + 2;
        let is_full = exchange.len() == MAX_EXCHANGE_EVENTS;
        let Some((line, behind)) = next_event_line(rest, number, is_full)? else {
            return Ok(exchange);
        };
        let Some(event) = read_client_event(alloc, shape, line)? else {
            return Err(TextRefusal::BadLine(number));
        };
        exchange.push(event)?;
        rest = behind;
    }
}

/// The text that spells an exchange.
pub fn write_exchange(alloc: Global, exchange: &[ClientEvent]) -> Result<Vec<u8>, Memory>
    ensures { IfOk result (λ text. Spells text.items exchange.now) }
{
    let mut text = Vec::from_slice(alloc, b"exchange 1\n")?;
    for event in exchange {
        put_client_event(&mut text, event)?;
        text.push(b'\n')?;
    }
    text.extend_from_slice(b"end\n")?;
    Ok(text)
}

/// The line of an event, without the LF that ends it: `C > "m"`, `C < "m"` or `C garbles`, where C is the number of the
/// connection and m the message, quoted.
pub fn write_event(alloc: Global, event: &ClientEvent) -> Result<Vec<u8>, Memory>
    ensures { IfOk result (λ line. line.items ≡ client_line event.now) }
{
    let mut line = Vec::new(alloc);
    put_client_event(&mut line, event)?;
    Ok(line)
}
