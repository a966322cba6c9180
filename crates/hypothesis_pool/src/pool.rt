//! The pool of hypotheses.

ghost use Rattle.std.specs.Prelude.{◌≡◌, ◌++◌, ◌∷◌, [], IfOk, MatchOption, OnErr, OnOk};
ghost use Rattle.spec_model.specs.Least.{IsLeastSkeleton};
ghost use Rattle.spec_model.specs.Verdict.{Says};
ghost use Rattle.spec_model.specs.World.{IsExplained, IsOfShape};
ghost use Rattle.hypothesis.specs.Judged.{PicksNothing};
ghost use Rattle.hypothesis_pool.specs.Pool.{rejection_of};
ghost use Rattle.hypothesis_pool.specs.Unalike.{CountsUnalike};

use crate::search::explain_receipt;
use crate::seen::{Receipt, Seen};
use crate::thin::keep_thin;
use dual_tree::dual::Dual;
use hypothesis::hypothesis::Hypothesis;
use hypothesis::inbox::Inbox;
use spec_model::Memory;
use spec_model::event::{ClientEvent, Skeleton, Verdict};
use std::alloc::Global;
use std::marker::Model;
use trail_store::Trail;

/// All explanations of the events fed so far: for the skeletons of the short runs that explain them, a hypothesis each; of those that
/// are alike the first in skeleton order. A contract sees a pool as its dual and the events. Definition: own.
#[derive(Debug, Drop)]
pub struct Pool {
    dual: Dual,
    seen: Seen,
    /// Where the skeletons lie.
    trail: Trail,
    /// The trail's length when it was made thin last.
    kept: usize,
    hypotheses: Vec<Hypothesis>,
    rejected_at: Option<usize>,
}

impl Model for Pool {
    ghost use Rattle.hypothesis_pool.specs.Fed.{Fed};
    ghost use Rattle.hypothesis_pool.specs.Pool.{IsPool};
    ghost use Rattle.spec_model.specs.contracts.tree.Block as block;
    ghost use Rattle.std.specs.Coded.{codes};

    ghost Value = { Fed };

    ghost coded = { Prim.hlevel (codes, block.the_row.coded) };

    ghost view = { λ pool. record { dual = pool.dual; events = pool.seen.events.items } };

    ghost invariant = { λ pool. IsPool pool.dual pool.seen.events.items pool.seen.inbox pool.trail pool.rejected_at pool.hypotheses.items };
}

impl Pool {
    ghost use Rattle.hypothesis_pool.specs.Fed.{Fed};

    /// The pool before any event.
    pub fn new(alloc: Global, dual: Dual) -> Result<Pool, Memory>
        requires { PicksNothing dual.spec }
        ensures { IfOk result (λ pool. pool ≡ record { dual = dual; events = [] }) }
    {
        // That the dual mirrors a tree is said of its nodes: the contract alone speaks of them.
        let _ = dual.nodes();
        let hypothesis = Hypothesis::opening(alloc, &dual)?;
        let inbox = Inbox::new(alloc, dual.shape().conns)?;
        let trail = Trail::new(alloc)?;
        let kept = trail.len();
        let mut hypotheses = Vec::new(alloc);
        hypotheses.push(hypothesis)?;
        let events = Vec::new(alloc);
        Ok(Pool {
            dual,
            seen: Seen { events, inbox },
            trail,
            kept,
            hypotheses,
            rejected_at: None,
        })
    }

    /// Takes one event more. After an error the pool is as it was, but that its trail may have got longer. A client's send takes time
    /// and memory for the message alone; a receipt takes them for each hypothesis that is met on the way to explain it, and
    /// the time to compare each of these with those met before.
    pub fn feed(&mut self, alloc: Global, event: &ClientEvent) -> Result<(), Memory>
        requires { IsOfShape self.old.dual.shape event.now }
        ensures ok { OnOk result (self.new ≡ record self.old { events = self.old.events ++ event.now ∷ [] }) }
        ensures err { OnErr result (self.new ≡ self.old) }
    {
        let copy = event.copy(alloc)?;
        if self.rejected_at.is_some() {
            self.seen.push(alloc, copy)?;
            return Ok(());
        }
        match copy {
            ClientEvent::Sends(conn, message) => {
                self.seen.push(alloc, ClientEvent::Sends(conn, message))?;
                Ok(())
            }
            ClientEvent::Receives(conn, message) => {
                self.seen.make_room()?;
                let receipt = Receipt { conn, message };
                let mut found = explain_receipt(
                    alloc,
                    &self.dual,
                    &self.seen,
                    &mut self.trail,
                    &self.hypotheses,
                    &receipt,
                )?;
                keep_thin(alloc, &mut self.trail, &mut self.kept, &mut found)?;
                self.seen.keep(receipt);
                self.rejected_at = rejection(&found, self.seen.events.len());
                self.hypotheses = found;
                Ok(())
            }
            ClientEvent::Garbles(conn) => {
                self.seen.push(alloc, ClientEvent::Garbles(conn))?;
                self.rejected_at = Some(self.seen.events.len());
                Ok(())
            }
        }
    }

    /// The verdict of the events fed: `Open` where they are explained, and otherwise the first event that nothing explains. It is
    /// never `Inconclusive`. It takes no memory.
    pub fn verdict(&self) -> Verdict
        ensures { Says self.now.dual.spec self.now.events result }
    {
        match self.rejected_at {
            None => Verdict::Open,
            Some(event) => Verdict::Reject(event),
        }
    }

    /// The number of hypotheses that live: so many skeletons of short runs explain the events fed, alike ones counted once. It takes no
    /// memory.
    pub fn live(&self) -> usize
        ensures { CountsUnalike self.now.dual.spec self.now.events result }
    {
        match self.rejected_at {
            None => self.hypotheses.len(),
            Some(_) => 0,
        }
    }

    /// The dual along which the hypotheses go. It takes no memory.
    pub fn dual(&self) -> &Dual
        ensures { result.now ≡ self.now.dual }
    {
        &self.dual
    }

    /// The least skeleton of a short run that explains the events fed, or `None` where nothing does.
    pub fn first(&self, alloc: Global) -> Result<Option<Skeleton>, Memory>
        ensures { IfOk result (λ first. MatchOption first (¬ IsExplained self.now.dual.spec self.now.events)
            (λ skeleton. IsLeastSkeleton self.now.dual.spec self.now.events skeleton)) }
    {
        if self.rejected_at.is_some() {
            return Ok(None);
        }
        let skeleton = self.trail.path(alloc, self.hypotheses[0].step())?;
        Ok(Some(skeleton))
    }
}

/// The number of an event, where it left no hypothesis.
fn rejection(found: &[Hypothesis], event: usize) -> Option<usize>
    ensures { result ≡ rejection_of event found.now }
{
    match found {
        [] => Some(event),
        _ => None,
    }
}
