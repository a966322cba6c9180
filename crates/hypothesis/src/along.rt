//! A skeleton, followed along a dual.

ghost use Rattle.std.specs.Prelude.{◌≡◌, ◌≤◌, IfOk, IfSome, MatchOption, length};
ghost use Rattle.std.specs.List.{Any, Contains};
ghost use Rattle.spec_model.specs.declared.event.ClientEvent.{ClientEvent};
ghost use Rattle.spec_model.specs.declared.event.Mark.{Mark};
ghost use Rattle.spec_model.specs.Least.{IsKeptSkeleton};
ghost use Rattle.spec_model.specs.World.{IsExchange, IsOfShape};
ghost use Rattle.hypothesis.specs.Along.{FollowsOn, GoesAlong, GoesOnBy, IsMadeBy, ReachesReceipt};
ghost use Rattle.hypothesis.specs.Judged.{PicksNothing};
ghost use Rattle.hypothesis.specs.declared.along.Reached.{Reached};

use crate::course::Along;
use crate::hypothesis::Hypothesis;
use crate::inbox::Inbox;
use crate::received::Received;
use dual_tree::dual::Dual;
use spec_model::Memory;
use spec_model::event::{ClientEvent, Mark, Skeleton};
use spec_model::list::Bytes;
use std::alloc::Global;

/// A skeleton of which some marks were made.
#[derive(Drop)]
struct Way {
    /// Where these marks lead.
    along: Along,
    /// How many they are.
    made: usize,
}

/// The hypothesis after a receipt, and how many marks were made for it.
#[derive(Drop)]
struct Reached {
    end: Hypothesis,
    count: usize,
}

/// Follows a skeleton that a short run has which explains the exchange. The exchange has at most 4,096 events.
pub fn along(
    alloc: Global,
    dual: &Dual,
    exchange: &[ClientEvent],
    skeleton: &Skeleton,
) -> Result<Along, Memory>
    requires few { length exchange.now ≤ 4096 }
    requires of_shape { IsExchange dual.now.shape exchange.now }
    requires picks_nothing { PicksNothing dual.now.spec }
    requires kept { IsKeptSkeleton dual.now.spec exchange.now skeleton.now }
    ensures { IfOk result (λ along. GoesAlong dual.now exchange.now skeleton.now along) }
{
    // That the dual mirrors a tree is said of its nodes: the contract alone speaks of them.
    let _ = dual.nodes();
    let mut inbox = Inbox::new(alloc, dual.shape().conns)?;
    let mut way = Way {
        along: Along {
            end: Hypothesis::opening(alloc, dual)?,
            blocks: Vec::new(alloc),
        },
        made: 0,
    };
    for event in exchange {
        let Some(next) = followed(alloc, dual, &mut inbox, way, skeleton.as_slice(), event)? else {
            unreachable!()
        };
        way = next;
    }
    Ok(way.along)
}

/// The skeleton, followed over one event more, or `None` where it does not explain the event.
fn followed(
    alloc: Global,
    dual: &Dual,
    inbox: &mut Inbox,
    way: Way,
    skeleton: &[Mark],
    event: &ClientEvent,
) -> Result<Option<Way>, Memory>
    requires of_shape { IsOfShape dual.now.shape event.now }
    requires inbox { length inbox.old ≡ dual.now.shape.conns }
    requires within { way.made ≤ length skeleton.now }
    ensures inbox { length inbox.new ≡ length inbox.old }
    ensures follows { IfOk result (λ next. FollowsOn dual.now skeleton.now event.now inbox.old inbox.new way next) }
{
    // The contract alone speaks of what the nodes are known to be.
    let _ = dual.nodes();
    let Way {
        along: Along { end, mut blocks },
        made,
    } = way;
    match event {
        ClientEvent::Sends(conn, message) => {
            inbox.put(alloc, *conn, message.copy(alloc)?)?;
            blocks.push(0)?;
            Ok(Some(Way {
                along: Along { end, blocks },
                made,
            }))
        }
        ClientEvent::Receives(conn, message) => {
            let marks = &skeleton[made..];
            match up_to_receipt(alloc, dual, inbox, end, marks, *conn, message)? {
                None => Ok(None),
                Some(Reached { end, count }) => {
                    blocks.push(count)?;
                    Ok(Some(Way {
                        along: Along { end, blocks },
                        made: made + count,
                    }))
                }
            }
        }
        ClientEvent::Garbles(_) => Ok(None),
    }
}

/// Goes on by the next marks until the message was sent and can be received; `None` where they do not lead there.
fn up_to_receipt(
    alloc: Global,
    dual: &Dual,
    inbox: &Inbox,
    hypothesis: Hypothesis,
    marks: &[Mark],
    conn: u16,
    message: &Bytes,
) -> Result<Option<Reached>, Memory>
    ensures reaches { IfOk result (λ reached. ReachesReceipt dual.now inbox.now hypothesis marks.now conn message.now reached) }
    ensures within { IfOk result (λ reached. IfSome reached (λ (r : Reached). r.count ≤ length marks.now)) }
{
    // The contract alone speaks of what the nodes are known to be.
    let _ = dual.nodes();
    let mut end = hypothesis;
    let mut count = 0;
    loop {
        match end.receive(alloc, conn, message)? {
            Received::Yes => return Ok(Some(Reached { end, count })),
            Received::No => return Ok(None),
            Received::Nothing => {}
        }
        let Some(mark) = marks.get(count) else {
            return Ok(None);
        };
        let Some(next) = after_mark(alloc, dual, inbox, &end, *mark)? else {
            return Ok(None);
        };
        end = next;
        count += 1;
    }
}

/// The hypothesis one mark further, or `None` where it does not go on by the mark.
fn after_mark(
    alloc: Global,
    dual: &Dual,
    inbox: &Inbox,
    hypothesis: &Hypothesis,
    mark: Mark,
) -> Result<Option<Hypothesis>, Memory>
    ensures { IfOk result (λ next. GoesOnBy dual.now inbox.now hypothesis.now mark next) }
{
    let expansions = hypothesis.expand(alloc, dual, inbox)?;
    Ok(made_by(expansions, mark))
}

/// The first hypothesis that was made by the mark, if one was.
fn made_by(hypotheses: Vec<Hypothesis>, mark: Mark) -> Option<Hypothesis>
    ensures { MatchOption result (¬ Any (IsMadeBy mark) hypotheses.items) (λ made. IsMadeBy mark made × Contains hypotheses.items made) }
{
    for hypothesis in hypotheses {
        if hypothesis.mark() == Some(mark) {
            return Some(hypothesis);
        }
    }
    None
}
