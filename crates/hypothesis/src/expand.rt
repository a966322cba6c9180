//! How a server may go on.

ghost use Rattle.std.specs.Prelude.{◌≡◌, ◌+◌, ◌∷◌, [], IfOk, List, None, Some, false, min, true, option_map, slice_index_or, slice_set, ℕ};
ghost use Rattle.spec_model.specs.declared.event.ClientEvent.{ClientEvent};
ghost use Rattle.spec_model.specs.declared.event.Mark.{Mark};
ghost use Rattle.spec_model.specs.declared.event.ServerEvent.TheVariants as servers;
ghost use Rattle.spec_model.specs.Skeleton.{mark_of};
ghost use Rattle.dual_step.specs.declared.next.Next.TheVariants as nexts;
ghost use Rattle.hypothesis.specs.Expansions.{AreExpansions, HoldsSends};
ghost use Rattle.hypothesis.specs.Judged.{PicksNothing};
ghost use Rattle.hypothesis.specs.Possible.{AreAllowed, Makes, counted, next_sent};
ghost use Rattle.hypothesis.specs.Stands.{StandsFor};

use crate::hypothesis::Hypothesis;
use crate::inbox::Inbox;
use dual_step::next::{Next, next_of};
use dual_step::steps::after_step;
use dual_tree::dual::Dual;
use spec_model::Memory;
use spec_model::event::{Mark, ServerEvent};
use spec_model::list::{Bytes, List};
use std::alloc::{AllocError, Global};

impl Hypothesis {
    /// All hypotheses one event of the server further, in skeleton order, where the clients sent what the inbox holds: takes in the
    /// order of the connections, arms in the order of their numbers. Each has the step of this one and the mark of its event. At a pick
    /// there are none.
    pub fn expand(
        &self,
        alloc: Global,
        dual: &Dual,
        inbox: &Inbox,
    ) -> Result<Vec<Hypothesis>, Memory>
        ensures { IfOk result (λ hs. (exchange : List ClientEvent) (skeleton : List Mark) → PicksNothing dual.now.spec
            → HoldsSends exchange dual.now.shape.conns inbox.now → StandsFor dual.now exchange skeleton self.now
            → AreExpansions dual.now exchange skeleton self.now hs.items) }
    {
        // The contract alone speaks of what the nodes are known to be.
        let _ = dual.nodes();
        let next = next_of(alloc, dual, &self.state)?;
        let events = allowed(
            alloc,
            next,
            dual.shape().conns,
            inbox,
            self.taken.as_slice(),
        )?;
        let mut expansions = List::new(alloc);
        for event in &events {
            let made = self.after(alloc, dual, event)?;
            expansions.push_some(made)?;
        }
        Ok(expansions.into_vec())
    }

    /// The hypothesis to which a step with this event leads, or `None` where it is no step from here.
    fn after(
        &self,
        alloc: Global,
        dual: &Dual,
        event: &ServerEvent,
    ) -> Result<Option<Hypothesis>, Memory>
        ensures { IfOk result (λ made. Makes dual.now self.now event.now made) }
    {
        match after_step(alloc, dual, &self.state, event)? {
            None => Ok(None),
            Some(state) => Ok(Some(Hypothesis {
                state,
                taken: counted(alloc, self.taken.as_slice(), event)?,
                facts: self.facts.copy(alloc)?,
                step: self.step,
                mark: Some(mark_of(event)),
            })),
        }
    }
}

/// The event without the message or the text in it.
fn mark_of(event: &ServerEvent) -> Mark
    ensures { result ≡ mark_of event.now }
{
    match event {
        ServerEvent::Take(conn, _) => Mark::Take(*conn),
        ServerEvent::Arm(arm) => Mark::Arm(*arm),
        ServerEvent::Test(outcome) => Mark::Test(*outcome),
        ServerEvent::Pick(_) => Mark::Pick,
        ServerEvent::Send(conn, _) => Mark::Send(*conn),
    }
}

/// For each connection the number of messages taken, after an event.
fn counted(alloc: Global, taken: &[usize], event: &ServerEvent) -> Result<List<usize>, Memory>
    ensures { IfOk result (λ after. after ≡ counted taken.now event.now) }
{
    match event {
        ServerEvent::Take(conn, _) => with_take(alloc, taken, *conn),
        _ => List::from_slice(alloc, taken),
    }
}

/// The numbers with one more on a connection.
fn with_take(alloc: Global, taken: &[usize], conn: u16) -> Result<List<usize>, Memory>
    ensures { IfOk result (λ after. after ≡ slice_set taken.now conn (slice_index_or taken.now conn 0 + 1)) }
{
    let mut after = Vec::from_slice(alloc, taken)?;
    let place = usize::from(conn);
    if place < after.len() {
        // No more messages fit into memory than can be counted.
        let count = after[place].checked_add(1).ok_or(AllocError)?;
        after[place] = count;
    }
    Ok(List::from_vec(after))
}

/// The events but a pick that may come next, in skeleton order, where clients sent what the inbox holds.
fn allowed(
    alloc: Global,
    next: Next,
    conns: u16,
    inbox: &Inbox,
    taken: &[usize],
) -> Result<Vec<ServerEvent>, Memory>
    ensures { IfOk result (λ events. AreAllowed next conns inbox.now taken.now events.items) }
{
    match next {
        Next::Offer(None) => takes(alloc, conns, inbox, taken),
        Next::Offer(Some(conn)) => takes_from(alloc, conn, inbox, taken),
        Next::Expect(conn, message) => sends(alloc, conn, message),
        Next::Compare => tests(alloc),
        Next::Split(count) => arms(alloc, count),
        // Texts are not guessed.
        Next::Fresh => Ok(Vec::new(alloc)),
        Next::Nothing => Ok(Vec::new(alloc)),
    }
}

/// The takes of the next message of each connection on which one waits, in their order.
fn takes(
    alloc: Global,
    conns: u16,
    inbox: &Inbox,
    taken: &[usize],
) -> Result<Vec<ServerEvent>, Memory>
    ensures { IfOk result (λ events. AreAllowed (nexts.Offer None) conns inbox.now taken.now events.items) }
{
    let mut events = List::new(alloc);
    for conn in 0..conns {
        let take = next_take(alloc, conn, inbox, taken)?;
        events.push_some(take)?;
    }
    Ok(events.into_vec())
}

/// The take of the next message of a connection, if one waits.
fn takes_from(
    alloc: Global,
    conn: u16,
    inbox: &Inbox,
    taken: &[usize],
) -> Result<Vec<ServerEvent>, Memory>
    ensures { IfOk result (λ events. (conns : ℕ) → AreAllowed (nexts.Offer (Some conn)) conns inbox.now taken.now events.items) }
{
    let mut events = List::new(alloc);
    events.push_some(next_take(alloc, conn, inbox, taken)?)?;
    Ok(events.into_vec())
}

/// The take of the next message that was sent on a connection, if one waits.
fn next_take(
    alloc: Global,
    conn: u16,
    inbox: &Inbox,
    taken: &[usize],
) -> Result<Option<ServerEvent>, Memory>
    ensures { IfOk result (λ take. take ≡ option_map (servers.Take conn) (next_sent inbox.now taken.now conn)) }
{
    let place = match taken.get(usize::from(conn)) {
        None => 0,
        Some(count) => *count,
    };
    match inbox.sent(conn).get(place) {
        None => Ok(None),
        Some(message) => Ok(Some(ServerEvent::Take(conn, message.copy(alloc)?))),
    }
}

/// The send of the message.
fn sends(alloc: Global, conn: u16, message: Bytes) -> Result<Vec<ServerEvent>, Memory>
    ensures { IfOk result (λ events. events.items ≡ servers.Send conn message ∷ []) }
{
    let events = vec![in alloc; ServerEvent::Send(conn, message)]?;
    Ok(events)
}

/// Both outcomes of a test.
fn tests(alloc: Global) -> Result<Vec<ServerEvent>, Memory>
    ensures { IfOk result (λ events. events.items ≡ servers.Test true ∷ servers.Test false ∷ []) }
{
    let events = vec![in alloc; ServerEvent::Test(true), ServerEvent::Test(false)]?;
    Ok(events)
}

/// The choices of so many arms, in their order; of those of a number above 65,534 none.
fn arms(alloc: Global, count: usize) -> Result<Vec<ServerEvent>, Memory>
    ensures { IfOk result (λ events. (conns : ℕ) (inbox : List (List (List ℕ))) (taken : List ℕ) → AreAllowed (nexts.Split count) conns inbox taken events.items) }
{
    let mut events = Vec::new(alloc);
    for arm in 0..within_u16(count) {
        events.push(ServerEvent::Arm(arm))?;
    }
    Ok(events)
}

/// The number, or 65,535 where it is greater.
fn within_u16(count: usize) -> u16
    ensures { result ≡ min count 65535 }
{
    u16::try_from(count).unwrap_or(u16::MAX)
}
