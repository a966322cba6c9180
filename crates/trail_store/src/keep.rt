//! Which steps are reached, and their numbers without the others.

ghost use Rattle.std.specs.Prelude.{◌≡◌, ◌+◌, ◌<◌, [], All, IfOk, length, map, slice_index};
ghost use Rattle.trail_store.specs.Keep.{AreReached, IsAlsoKept, IsClosed, IsRenumbered};
ghost use Rattle.trail_store.specs.Steps.{AreSteps};

use crate::step::Step;
use spec_model::Memory;
use std::alloc::Global;

/// By which steps one of the given ones is reached, by number.
pub fn reached(alloc: Global, steps: &[Step], given: &[usize]) -> Result<Vec<bool>, Memory>
    requires steps { AreSteps steps.now }
    requires given { All (λ number. number < length steps.now + 1) given.now }
    ensures { IfOk result (λ kept. AreReached steps.now given.now kept.items) }
{
    let mut kept = vec![in alloc; false; steps.len() + 1]?;
    kept[0] = true;
    keep_given(&mut kept, steps, given);
    Ok(kept)
}

/// Keeps the given steps, each with what it goes on from.
fn keep_given(kept: &mut [bool], steps: &[Step], given: &[usize])
    requires steps { AreSteps steps.now }
    requires given { All (λ number. number < length steps.now + 1) given.now }
    requires none { AreReached steps.now [] kept.old }
    ensures { AreReached steps.now given.now kept.new }
{
    for number in given {
        keep_whole(kept, steps, *number);
    }
}

/// Keeps a step with what it goes on from. What a kept step goes on from is kept already, so this looks at each step once in all.
fn keep_whole(kept: &mut [bool], steps: &[Step], step: usize)
    requires steps { AreSteps steps.now }
    requires there { step < length steps.now + 1 }
    requires closed { IsClosed steps.now kept.old }
    ensures { IsAlsoKept steps.now kept.old step kept.new }
{
    let mut number = step;
    while !kept[number] {
        kept[number] = true;
        number = steps[number - 1].parent as usize;
    }
}

/// Steps without those that are not kept. Definition: own.
#[derive(Drop)]
pub struct Renumbered {
    pub steps: Vec<Step>,
    /// For each number of a kept step its new one; at other places stands any number.
    pub numbers: Vec<u32>,
}

/// The kept steps alone.
pub fn kept_steps(alloc: Global, steps: &[Step], kept: &[bool]) -> Result<Renumbered, Memory>
    requires steps { AreSteps steps.now }
    requires closed { IsClosed steps.now kept.now }
    ensures { IfOk result (λ left. IsRenumbered steps.now kept.now (length steps.now) left.steps.items left.numbers.items) }
{
    let mut left = Vec::new(alloc);
    let mut numbers = Vec::with_capacity(alloc, steps.len() + 1)?;
    numbers.push(0)?;
    for (below, step) in steps.iter().enumerate() {
        if kept[below + 1] {
            left.push(Step {
                parent: numbers[step.parent as usize],
                mark: step.mark,
            })?;
        }
        numbers.push(left.len() as u32)?;
    }
    Ok(Renumbered {
        steps: left,
        numbers,
    })
}

/// Writes the new number in place of each number.
pub fn renumber(steps: &mut [usize], numbers: &[u32])
    requires { All (λ number. number < length numbers.now) steps.old }
    ensures { steps.new ≡ map (slice_index numbers.now) steps.old }
{
    for step in steps.iter_mut() {
        *step = numbers[*step] as usize;
    }
}
