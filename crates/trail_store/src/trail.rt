//! Trails.

ghost use Rattle.std.specs.Prelude.{◌≡◌, ◌+◌, ◌<◌, ◌≤◌, ◌++◌, ◌∷◌, [], All, IfOk, OnErr, OnOk, Some, length, map, slice_get, sum_by};
ghost use Rattle.trail_store.specs.Path.{BeginsOne, IsSublistOf, path_at};

use crate::keep::{Renumbered, kept_steps, reached, renumber};
use crate::step::Step;
use spec_model::Memory;
use spec_model::event::{Mark, Skeleton};
use spec_model::list::List;
use std::alloc::{AllocError, Global};
use std::marker::Model;

/// Skeletons that share their beginnings. Each has a number, its step, from 0 in the order in which they were pushed; step 0 is the
/// empty skeleton, and each other one goes on from an earlier one by a mark. Contracts see a trail as the list of the skeletons by
/// number, the paths. Definition: own.
#[derive(Debug, Drop)]
pub struct Trail {
    /// The steps from 1 on, since of step 0 there is nothing to keep.
    steps: Vec<Step>,
}

impl Model for Trail {
    ghost use Rattle.std.specs.Prelude.{List};
    ghost use Rattle.spec_model.specs.declared.event.Mark.{Mark};
    ghost use Rattle.trail_store.specs.Steps.{AreSteps, paths_of};

    ghost Value = { List (List Mark) };

    ghost view = { λ trail. paths_of trail.steps.items };

    ghost invariant = { λ trail. AreSteps trail.steps.items };
}

impl Trail {
    /// The trail of the empty skeleton alone. It takes no memory yet, so this answers Ok.
    pub fn new(alloc: Global) -> Result<Trail, Memory>
        ensures { IfOk result (λ trail. trail ≡ [] ∷ []) }
    {
        Ok(Trail {
            steps: Vec::new(alloc),
        })
    }

    /// The number of steps. It takes no memory.
    pub fn len(&self) -> usize
        ensures count { result ≡ length self.now }
        ensures first { slice_get self.now 0 ≡ Some [] }
    {
        self.steps.len() + 1
    }

    /// Puts a step behind the others, which goes on from the one of that number by this mark, and gives its number. After an error the
    /// trail is as it was. A push takes constant time, taken over all pushes. A trail has at most 2^32 steps, and to one that has so
    /// many none can be pushed: the answer is then want of memory. The steps hold their allocator, so the one that is passed is not
    /// used.
    pub fn push(&mut self, _alloc: Global, parent: usize, mark: Mark) -> Result<usize, Memory>
        requires { parent < length self.old }
        ensures ok { OnOk result (self.new ≡ self.old ++ (path_at self.old parent ++ mark ∷ []) ∷ []) }
        ensures number { IfOk result (λ step. step ≡ length self.old) }
        ensures err { OnErr result (self.new ≡ self.old) }
    {
        if self.steps.len() >= u32::MAX as usize {
            return Err(AllocError);
        }
        self.steps.push(Step {
            parent: parent as u32,
            mark,
        })?;
        Ok(self.steps.len())
    }

    /// The skeleton of the step of that number, in time of its length.
    pub fn path(&self, alloc: Global, step: usize) -> Result<Skeleton, Memory>
        requires { step < length self.now }
        ensures { IfOk result (λ path. path ≡ path_at self.now step) }
    {
        let mut marks = Vec::new(alloc);
        let mut number = step;
        while number > 0 {
            let step = self.steps[number - 1];
            marks.push(step.mark)?;
            number = step.parent as usize;
        }
        marks.reverse();
        Ok(List::from_vec(marks))
    }

    /// Drops the steps by which no given one is reached, and writes each given step's new number in place of its number. What stays
    /// keeps its order, and step 0 stays. The given numbers may stand in any order, and more than once. After an error the trail and
    /// the numbers are as they were. It takes time of the lengths of trail and numbers, and memory of the trail's length until it
    /// returns. So where it is called whenever the trail has doubled since the last call, it costs a constant for each push.
    pub fn keep_only(&mut self, alloc: Global, steps: &mut [usize]) -> Result<(), Memory>
        requires { All (λ step. step < length self.old) steps.old }
        ensures numbers { OnOk result (All (λ step. step < length self.new) steps.new) }
        ensures kept { OnOk result (map (path_at self.new) steps.new ≡ map (path_at self.old) steps.old) }

        // What no given step begins with goes, what stays is not doubled, and each given step keeps no more steps than it has marks.
        ensures reached { OnOk result (All (BeginsOne (map (path_at self.old) steps.old)) self.new) }
        ensures once { OnOk result (IsSublistOf self.new self.old) }
        ensures few { OnOk result (length self.new ≤ 1 + sum_by length (map (path_at self.old) steps.old)) }

        ensures err { OnErr result (self.new ≡ self.old) }
        ensures err_numbers { OnErr result (steps.new ≡ steps.old) }
    {
        let kept = reached(alloc, &self.steps, steps)?;
        let Renumbered {
            steps: left,
            numbers,
        } = kept_steps(alloc, &self.steps, &kept)?;
        self.steps = left;
        renumber(steps, &numbers);
        Ok(())
    }
}
