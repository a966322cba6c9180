//! Pools that are fed event by event. What a pool has to say is worked out by hand: which short runs explain the events, which of
//! them are alike, and which has the least skeleton.

use crate::rows::client_event;
use anyhow::{Result, bail};
use dual_tree::turn::dual_of;
use hypothesis::picks::picks_nothing;
use hypothesis_pool::pool::Pool;
use spec_model::event::{Mark, Verdict};
use spec_rules::checked::Checked;
use std::alloc::Global;
use std::fmt::Write;
use test_rows::is_of_shape;

/// The pool of a specification, before any event.
pub fn begin(alloc: Global, spec: Checked) -> Result<Pool> {
    if !picks_nothing(spec.spec()) {
        bail!("the specification picks");
    }
    let dual = dual_of(alloc, spec)?;
    Ok(Pool::new(alloc, dual)?)
}

/// Puts a mark behind a text.
fn put_mark(text: &mut String, mark: Mark) -> Result<()> {
    match mark {
        Mark::Take(conn) => write!(text, " take {conn}")?,
        Mark::Arm(arm) => write!(text, " arm {arm}")?,
        Mark::Test(true) => write!(text, " yes")?,
        Mark::Test(false) => write!(text, " no")?,
        Mark::Pick => write!(text, " pick")?,
        Mark::Send(conn) => write!(text, " send {conn}")?,
    }
    Ok(())
}

/// What a pool has to say: the event that it rejects, or how many hypotheses live, with the least skeleton.
fn said(alloc: Global, pool: &Pool) -> Result<String> {
    let mut said = format!(in alloc; "{}", pool.live())?;
    match (pool.first(alloc)?, pool.verdict()) {
        (Some(skeleton), Verdict::Open) => {
            for mark in skeleton.as_slice() {
                put_mark(&mut said, *mark)?;
            }
        }
        (None, Verdict::Reject(event)) => write!(said, " reject {event}")?,
        _ => bail!("another verdict than the skeletons"),
    }
    Ok(said)
}

/// Feeds the event of a line. Answered is what the pool has to say behind it.
pub fn answer(alloc: Global, pool: &mut Pool, line: &str) -> Result<String> {
    let shape = pool.dual().shape();
    let event = client_event(alloc, &shape, line)?;
    if !is_of_shape(&shape, &event) {
        bail!("the event is not of the shape");
    }
    pool.feed(alloc, &event)?;
    said(alloc, pool)
}
