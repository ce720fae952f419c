// Arguments so far: what is passed, and the accesses that they opened.

ghost use Rattle.std.specs.Prelude.{◌≡◌, ℕ, IfOk, map};
ghost use Rattle.hv_sem_copying.specs.Calls as calls;
ghost use Rattle.hv_partial.specs.HeldTree.{held_trees};
ghost use Rattle.hv_eval_state.specs.Gives.{Gives, from};
ghost use Rattle.hv_eval_state.specs.Opened.{last_first};
ghost use Rattle.hv_eval_calls.specs.Passes.{passed_by};
ghost use Rattle.hv_eval_calls.specs.Arguments.{argument_by, taken_one, sofar_of};

use crate::passed::Passed;
use hv_eval_state::{Access, Halt, Mode, Spot, Task, open};
use hv_items::Items;
use hv_partial::Held;
use std::alloc::{AllocError as NoMemory, Global};

/// An argument that has been evaluated.
#[derive(Drop)]
pub enum Argument {
    /// A value of the callee's own.
    Owns(Mode, Held),
    /// A place of the caller.
    Lends(Mode, Spot),
}

/// Arguments so far.
#[derive(Drop)]
pub struct Given {
    /// How many references are in use.
    pub used: usize,
    pub passed: Items<Passed>,
    pub opens: Vec<Access>,
}

/// An argument more. One that lends takes the next reference.
#[tactic(auto, unfolding(hv_sem_copying::specs::Run::and_then, hv_sem_copying::specs::Run::pure))]
pub fn take(alloc: Global, task: &mut Task, given: Given, argument: Argument) -> Result<Given, Halt>
    ensures { (n : ℕ) → Gives sofar_of (from (taken_one (argument_by argument) given.used (map passed_by given.passed) (last_first given.opens.items)) n task.old) result task.new }
{
    let mut given = given;
    match argument {
        Argument::Owns(mode, held) => {
            given.passed.push(Passed::Value(mode, held))?;
            Ok(given)
        }
        Argument::Lends(mode, place) => {
            let reference = given.used;
            let Some(used) = reference.checked_add(1) else {
                return Err(Halt::NoMemory);
            };
            let access = Access {
                mode,
                reference,
                place,
            };
            open(alloc, task, &access)?;
            given.passed.push(Passed::Lent(reference))?;
            given.opens.push(access).map_err(NoMemory::from)?;
            given.used = used;
            Ok(given)
        }
    }
}

/// A body begins with its captures.
pub fn passed_captures(alloc: Global, captures: Items<Held>) -> Result<Items<Passed>, NoMemory>
    ensures { IfOk result (λ passed. map passed_by passed ≡ calls.passed_captures (held_trees captures)) }
{
    let mut captures = captures;
    let mut passed = Items::new(alloc);
    for i in 0..captures.len() {
        let held = captures.replace(i, Held::Hole);
        passed.push(Passed::Value(Mode::Reads, held))?;
    }
    Ok(passed)
}
