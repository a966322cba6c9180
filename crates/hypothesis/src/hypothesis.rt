//! Hypotheses.

ghost use Rattle.std.specs.Prelude.{◌≡◌, ◌<◌, ◌↔◌, ◌++◌, ◌∷◌, [], IfOk, IsSome, IsTrue, None, OnErr, OnOk, Some, length};
ghost use Rattle.spec_model.specs.declared.event.Mark.{Mark};
ghost use Rattle.hypothesis.specs.Left.{IsAlike};
ghost use Rattle.hypothesis.specs.Stands.{StandsFor};
ghost use Rattle.trail_store.specs.Path.{path_at};

use constraint_set::facts::Facts;
use dual_step::state::State;
use dual_step::steps::opening;
use dual_tree::dual::Dual;
use spec_model::Memory;
use spec_model::event::Mark;
use spec_model::list::List;
use std::alloc::Global;
use trail_store::Trail;

/// A run over 4,096 events compares at most so often. Between two takes it comes past at most 15 statements that compare, each of
/// which compares a key with at most 256 pairs, and there are at most 4,097 such stretches: 4,097 · 15 · 256.
pub const MOST_COMPARISONS: u64 = 15_732_480;

/// All runs of the server with one skeleton that explain what was seen, as far as their future depends on it: how the server stands,
/// on each connection how many messages it took and which it sent that were not received, and what is known of the texts that it
/// picked. The skeleton lies in a trail, where a step stands for it. Definition: own, after the testers of Li, Pierce and Zdancewic,
/// 2021.
#[derive(Debug, Drop)]
pub struct Hypothesis {
    pub(crate) state: State,
    /// For each connection the number of messages taken.
    pub(crate) taken: List<usize>,
    pub(crate) facts: Facts,
    /// The step of a trail that stands for the skeleton, but for the mark.
    pub(crate) step: usize,
    /// The mark by which `expand` made it, which is not in the trail yet.
    pub(crate) mark: Option<Mark>,
}

impl Hypothesis {
    /// The hypothesis of the server that has not moved, when nothing was seen. Of its facts as many disequalities may be asked as a run
    /// compares at most.
    pub fn opening(alloc: Global, dual: &Dual) -> Result<Hypothesis, Memory>
        ensures stands { IfOk result (λ h. StandsFor dual.now [] [] h) }
        ensures facts { IfOk result (λ h. h.facts ≡ record { framing = dual.now.shape.framing; room = MOST_COMPARISONS; asked = 0; symbols = []; differences = [] }) }
        ensures step { IfOk result (λ h. h.step ≡ 0) }
        ensures mark { IfOk result (λ h. h.mark ≡ None) }
    {
        // That the dual mirrors a tree is said of its nodes: the contract alone speaks of them.
        let _ = dual.nodes();
        let none_taken = vec![in alloc; 0; usize::from(dual.shape().conns)]?;
        Ok(Hypothesis {
            state: opening(alloc, dual)?,
            taken: List::from_vec(none_taken),
            facts: Facts::new(alloc, dual.shape().framing, MOST_COMPARISONS)?,
            step: 0,
            mark: None,
        })
    }

    /// An equal hypothesis.
    pub fn copy(&self, alloc: Global) -> Result<Hypothesis, Memory>
        ensures { IfOk result (λ copy. copy ≡ self.now) }
    {
        Ok(Hypothesis {
            state: self.state.copy(alloc)?,
            taken: self.taken.copy(alloc)?,
            facts: self.facts.copy(alloc)?,
            step: self.step,
            mark: self.mark,
        })
    }

    /// What is known of the texts that its runs pick. Symbols are numbered in the order of the picks. It takes no memory.
    pub fn facts(&self) -> &Facts
        ensures { result.now ≡ self.now.facts }
    {
        &self.facts
    }

    /// The mark by which `expand` made it. It is `None` at the opening, and once `note` pushed it. It takes no memory.
    pub fn mark(&self) -> Option<Mark>
        ensures { result ≡ self.now.mark }
    {
        self.mark
    }

    /// Its step in a trail: that of its skeleton, or, where there is a mark, of its skeleton without the mark. It takes no memory.
    pub fn step(&self) -> usize
        ensures { result ≡ self.now.step }
    {
        self.step
    }

    /// Gives it another step, as where a trail numbered its steps anew. It takes no memory.
    pub fn set_step(&mut self, step: usize)
        ensures { self.new ≡ record self.old { step = step } }
    {
        self.step = step;
    }

    /// Pushes the mark into the trail, behind the step. The step is then the new one, and there is no mark. All else stays, and after an
    /// error the trail too.
    pub fn note(&mut self, alloc: Global, trail: &mut Trail) -> Result<(), Memory>
        requires mark { IsSome self.old.mark }
        requires step { self.old.step < length trail.old }
        ensures noted { OnOk result (self.new ≡ record self.old { step = length trail.old; mark = None }) }
        ensures pushed { OnOk result ((mark : Mark) → self.old.mark ≡ Some mark → trail.new ≡ trail.old ++ (path_at trail.old self.old.step ++ mark ∷ []) ∷ []) }
        ensures err { OnErr result (self.new ≡ self.old) }
        ensures err_trail { OnErr result (trail.new ≡ trail.old) }
    {
        let Some(mark) = self.mark else {
            unreachable!()
        };
        self.step = trail.push(alloc, self.step, mark)?;
        self.mark = None;
        Ok(())
    }

    /// Whether both show the same; `laws::alike_skeletons` says what follows. It takes no memory.
    pub fn is_alike(&self, other: &Hypothesis) -> bool
        ensures { IsTrue result ↔ IsAlike self.now other.now }
    {
        self.state.is_same(&other.state) && self.taken == other.taken
    }
}
