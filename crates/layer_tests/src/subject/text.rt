//! Texts of exchanges, worlds and scripts.

use anyhow::Result;
use exchange_text::exchange::{read_exchange, write_exchange};
use exchange_text::script::{read_script, write_script};
use exchange_text::world::{read_world, write_world};
use spec_model::event::Shape;
use std::alloc::Global;
use test_rows::{first_word, text_of};

/// What the reader answers to a text between quotes; what it reads is written again, and has to come out as the text.
pub fn answer_exchange(alloc: Global, shape: &Shape, step: &str) -> Result<String> {
    let text = text_of(alloc, step)?;
    Ok(match read_exchange(alloc, shape, text.as_slice()) {
        Err(refusal) => format!(in alloc; "{refusal:?}")?,
        Ok(exchange) if write_exchange(alloc, &exchange)?.as_slice() == text.as_slice() => {
            format!(in alloc; "{} events", exchange.len())?
        }
        Ok(_) => String::from_str(alloc, "written otherwise")?,
    })
}

/// The same of texts of worlds.
pub fn answer_world(alloc: Global, shape: &Shape, step: &str) -> Result<String> {
    let text = text_of(alloc, step)?;
    Ok(match read_world(alloc, shape, text.as_slice()) {
        Err(refusal) => format!(in alloc; "{refusal:?}")?,
        Ok(world) if write_world(alloc, &world)?.as_slice() == text.as_slice() => {
            format!(in alloc; "{} events", world.len())?
        }
        Ok(_) => String::from_str(alloc, "written otherwise")?,
    })
}

/// A script of this many actions on one connection, but for what stands behind them.
fn unended(alloc: Global, actions: usize) -> Result<String> {
    let mut text = String::from_str(alloc, "script 1\nconns 1\n")?;
    for _ in 0..actions {
        text.push_str("0 await 1\n")?;
    }
    Ok(text)
}

/// The text of a step: the one between its quotes; or where it begins with a number, so many actions and then that one.
fn script_of(alloc: Global, step: &str) -> Result<Vec<u8>> {
    if step.starts_with('"') {
        return Ok(text_of(alloc, step)?.into_vec());
    }
    let (actions, end) = first_word(step);
    let mut text = unended(alloc, actions.parse()?)?.into_bytes();
    text.extend_from_slice(text_of(alloc, end)?.as_slice())?;
    Ok(text)
}

/// The same of texts of scripts.
pub fn answer_script(alloc: Global, shape: &Shape, step: &str) -> Result<String> {
    let text = script_of(alloc, step)?;
    Ok(match read_script(alloc, shape, &text) {
        Err(refusal) => format!(in alloc; "{refusal:?}")?,
        Ok(script) if write_script(alloc, &script)?.as_slice() == text.as_slice() => {
            format!(in alloc; "{} conns, {} actions", script.conns, script.actions.len())?
        }
        Ok(_) => String::from_str(alloc, "written otherwise")?,
    })
}
