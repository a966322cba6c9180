//! The goals that are still to be read, as a stack: the next one stands last.

ghost use Rattle.std.specs.Prelude.{◌≡◌, ◌++◌, MatchOption, OnOk, Some, None, IfOk, if◌then◌else◌, reverse};
ghost use Rattle.spec_scan.specs.Table.{shift, takes};

use crate::goal::{Class, Goal};
use crate::table::{may_end, rule};
use std::alloc::AllocError;

/// Whether a token of this class may come next.
pub fn takes(goals: &[Goal], class: Class) -> bool
    ensures { result ≡ takes (reverse goals.now) class }
{
    let mut left = goals.len();
    while left > 0 {
        let goal = goals[left - 1];
        if rule(goal, class).is_some() {
            return true;
        }
        if !may_end(goal) {
            return false;
        }
        left -= 1;
    }
    false
}

/// Puts goals on the stack, so that the first of them is the next.
fn push_all(goals: &mut Vec<Goal>, more: &[Goal]) -> Result<(), AllocError>
    ensures { OnOk result (reverse goals.new.items ≡ more.now ++ reverse goals.old.items) }
{
    let mut left = more.len();
    while left > 0 {
        left -= 1;
        goals.push(more[left])?;
    }
    Ok(())
}

/// Replaces the goals that a token of this class stands for by those that follow it; `false` where it may not come next.
pub fn shift(goals: &mut Vec<Goal>, class: Class) -> Result<bool, AllocError>
    ensures { IfOk result (λ moved. shift (reverse goals.old.items) class ≡ (if moved then Some (reverse goals.new.items) else None)) }
{
    while let Some(goal) = goals.pop() {
        if let Some(more) = rule(goal, class) {
            push_all(goals, more)?;
            return Ok(true);
        }
        if !may_end(goal) {
            return Ok(false);
        }
    }
    Ok(false)
}
