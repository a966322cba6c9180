//! The search for the hypotheses that explain a receipt.

ghost use Rattle.std.specs.Prelude.{◌≡◌, ◌↔◌, ◌<◌, ◌∷◌, [], Any, IfOk, IsTrue, OnOk, length, reverse};
ghost use Rattle.spec_model.specs.World.{IsPrefixOf};
ghost use Rattle.hypothesis.specs.Judged.{PicksNothing};
ghost use Rattle.hypothesis.specs.Left.{IsAlike};
ghost use Rattle.hypothesis.specs.Received.{with_receipt};
ghost use Rattle.hypothesis_pool.specs.Pool.{Collects};
ghost use Rattle.hypothesis_pool.specs.Search.{IsNoted, IsUnderWay, MayGetOneMore, ReplacesLast};
ghost use Rattle.hypothesis_pool.specs.Standing.{StandForAll};

use crate::seen::{Receipt, Seen};
use dual_tree::dual::Dual;
use hypothesis::hypothesis::Hypothesis;
use hypothesis::received::Received;
use spec_model::Memory;
use std::alloc::Global;
use trail_store::Trail;

/// A search, depth first and in the order of skeletons. What it meets again it does not follow again: those that are alike go on
/// alike, and the first of them comes before the others.
#[derive(Debug, Drop)]
struct Search {
    /// Those that were met and had to go on.
    met: Vec<Hypothesis>,
    /// Those that explain the receipt, in order.
    found: Vec<Hypothesis>,
    /// Those that are still to be followed, the first of them at the end.
    ahead: Vec<Hypothesis>,
}

/// The hypotheses that explain the events seen and the receipt, if these explain the events seen. Their marks are put into the trail;
/// those behind which nothing was found stay there too. It takes time for each hypothesis that is met, and to compare
/// each with those met before.
pub fn explain_receipt(
    alloc: Global,
    dual: &Dual,
    seen: &Seen,
    trail: &mut Trail,
    hypotheses: &[Hypothesis],
    receipt: &Receipt,
) -> Result<Vec<Hypothesis>, Memory>
    requires picks_nothing { PicksNothing dual.now.spec }
    requires collects { Collects dual.now seen.now.events.items seen.now.inbox }
    requires stand { StandForAll dual.now seen.now.events.items trail.old hypotheses.now }
    ensures stand { IfOk result (λ found. StandForAll dual.now (with_receipt seen.now.events.items receipt.now.conn receipt.now.message) trail.new found.items) }
    ensures trail { IsPrefixOf trail.old trail.new }
{
    // That the dual mirrors a tree is said of its nodes: the contract alone speaks of them.
    let _ = dual.nodes();
    let mut search = Search {
        met: Vec::new(alloc),
        found: Vec::new(alloc),
        ahead: copies_reversed(alloc, hypotheses)?,
    };
    while let Some(next) = search.ahead.pop() {
        search.follow(alloc, dual, seen, trail, receipt, next)?;
    }
    let Search {
        met: _,
        found,
        ahead: _,
    } = search;
    Ok(found)
}

/// Equal hypotheses, the last first.
fn copies_reversed(alloc: Global, hypotheses: &[Hypothesis]) -> Result<Vec<Hypothesis>, Memory>
    ensures { IfOk result (λ copies. copies.items ≡ reverse hypotheses.now) }
{
    let mut copies = Vec::new(alloc);
    for hypothesis in hypotheses {
        copies.push(hypothesis.copy(alloc)?)?;
    }
    copies.reverse();
    Ok(copies)
}

impl Search {
    /// Follows the hypothesis that was taken from those ahead by what the receipt tells of it.
    fn follow(
        &mut self,
        alloc: Global,
        dual: &Dual,
        seen: &Seen,
        trail: &mut Trail,
        receipt: &Receipt,
        next: Hypothesis,
    ) -> Result<(), Memory>
        requires picks_nothing { PicksNothing dual.now.spec }
        requires collects { Collects dual.now seen.now.events.items seen.now.inbox }
        requires under_way { IsUnderWay dual.now seen.now.events.items receipt.now.conn receipt.now.message trail.old
            self.old.met.items self.old.found.items (next ∷ reverse self.old.ahead.items) }
        ensures under_way { OnOk result (IsUnderWay dual.now seen.now.events.items receipt.now.conn receipt.now.message trail.new
            self.new.met.items self.new.found.items (reverse self.new.ahead.items)) }
        ensures replaces { OnOk result (ReplacesLast dual.now seen.now.events.items next self.old.ahead.items self.new.ahead.items) }
        ensures trail { IsPrefixOf trail.old trail.new }
    {
        // The contract alone speaks of what the nodes are known to be.
        let _ = dual.nodes();
        let mut next = next;
        match next.receive(alloc, receipt.conn, &receipt.message)? {
            Received::No => Ok(()),
            Received::Yes => {
                if has_alike(&self.found, &next) {
                    return Ok(());
                }
                note_mark(alloc, trail, &mut next)?;
                self.found.push(next)?;
                Ok(())
            }
            Received::Nothing => {
                if has_alike(&self.met, &next) {
                    return Ok(());
                }
                note_mark(alloc, trail, &mut next)?;
                let mut expansions = next.expand(alloc, dual, &seen.inbox)?;
                self.remember(next)?;
                expansions.reverse();
                self.ahead.append(&mut expansions)?;
                Ok(())
            }
        }
    }

    /// Keeps a hypothesis among those met. Where nothing is ahead, none that comes later can be alike: each goes on from it.
    fn remember(&mut self, hypothesis: Hypothesis) -> Result<(), Memory>
        ensures met { OnOk result (MayGetOneMore hypothesis self.old.met.items self.new.met.items) }
        ensures found { self.new.found ≡ self.old.found }
        ensures ahead { self.new.ahead ≡ self.old.ahead }
    {
        if self.ahead.is_empty() {
            return Ok(());
        }
        self.met.push(hypothesis)?;
        Ok(())
    }
}

/// Whether one of these shows the same as the hypothesis. It takes no memory.
fn has_alike(hypotheses: &[Hypothesis], hypothesis: &Hypothesis) -> bool
    ensures { IsTrue result ↔ Any (λ other. IsAlike other hypothesis.now) hypotheses.now }
{
    hypotheses.iter().any(|other| other.is_alike(hypothesis))
}

/// Puts the mark of a hypothesis into the trail, if it has one.
fn note_mark(alloc: Global, trail: &mut Trail, hypothesis: &mut Hypothesis) -> Result<(), Memory>
    requires { hypothesis.old.step < length trail.old }
    ensures noted { OnOk result (IsNoted trail.old trail.new hypothesis.old hypothesis.new) }
    ensures trail { IsPrefixOf trail.old trail.new }
{
    match hypothesis.mark() {
        None => Ok(()),
        Some(_) => {
            hypothesis.note(alloc, trail)?;
            Ok(())
        }
    }
}
