// Entering and leaving a body: its locals stand in place of the caller's.

ghost use Rattle.std.specs.Prelude.{◌≡◌, ◌<◌, ◌+◌, Some, IfOk, OnOk, length, map, drop, get_or, option_map};
ghost use Rattle.std.specs.List.{slice_get};
ghost use Rattle.hv_value.specs.ValueTree.{Hole};
ghost use Rattle.hv_sem_copying.specs.Copying.{callee_trees, entering, returned};
ghost use Rattle.hv_partial.specs.HeldTree.{held_tree};
ghost use Rattle.hv_eval_state.specs.Gives.{now_of};
ghost use Rattle.hv_eval_calls.specs.Passes.{passed_by, lent_by, own_by, with_own, first_by};

use crate::passed::Passed;
use hv_eval_state::{Mode, Task, drop_local, set_local};
use hv_items::{Items, at};
use hv_partial::{Held, copy};
use std::alloc::{AllocError as NoMemory, Global};
use std::mem;

/// The locals of a caller while its callee runs, and what that was entered with, whose values have moved on.
#[derive(Drop)]
pub struct Caller {
    pub locals: Items<Held>,
    pub given: Items<Passed>,
}

#[tactic(auto, using(hv_eval_state::proofs::LocalLemmas::by_look, hv_eval_state::proofs::LocalLemmas::by_hole))]
fn copy_local(alloc: Global, locals: &[Held], x: usize) -> Result<Held, NoMemory>
    ensures { IfOk result (λ held. held_tree held ≡ get_or (map held_tree locals.now) x Hole) }
{
    match at(locals, x) {
        Some(held) => copy(alloc, held),
        None => Ok(Held::Hole),
    }
}

// What the parameter is at first. A value moves out.
#[tactic(auto, using(crate::proofs::EntryLemmas::by_take))]
fn take_first(
    alloc: Global,
    locals: &[Held],
    given: &mut Items<Passed>,
    i: usize,
) -> Result<Held, NoMemory>
    requires { i < length given.old }
    ensures first { IfOk result (λ held. option_map (first_by locals.now) (slice_get given.old i) ≡ Some (held_tree held)) }
    ensures lent { OnOk result (map lent_by given.new ≡ map lent_by given.old) }
    ensures rest { OnOk result (drop (i + 1) given.new ≡ drop (i + 1) given.old) }
    ensures count { OnOk result (length given.new ≡ length given.old) }
{
    match given.replace(i, Passed::Value(Mode::Reads, Held::Hole)) {
        Passed::Value(_, held) => Ok(held),
        Passed::Lent(r) => {
            given.set(i, Passed::Lent(r));
            copy_local(alloc, locals, r)
        }
    }
}

// What the parameters are at first.
fn take_firsts(
    alloc: Global,
    locals: &[Held],
    given: &mut Items<Passed>,
) -> Result<Items<Held>, NoMemory>
    ensures first { IfOk result (λ firsts. map held_tree firsts ≡ callee_trees (own_by locals.now) (map passed_by given.old)) }
    ensures lent { OnOk result (map lent_by given.new ≡ map lent_by given.old) }
{
    let mut firsts = Items::new(alloc);
    for i in 0..given.len() {
        let first = take_first(alloc, locals, given, i)?;
        firsts.push(first)?;
    }
    Ok(firsts)
}

/// A callee begins with what it is entered with: what a lent reference stands for is copied.
pub fn begin(alloc: Global, task: &mut Task, given: Items<Passed>) -> Result<Caller, NoMemory>
    ensures begun { OnOk result (now_of task.new ≡ with_own (now_of task.old) (entering (now_of task.old).own (map passed_by given))) }
    ensures locals { IfOk result (λ c. c.locals ≡ task.old.locals) }
    ensures lent { IfOk result (λ c. map lent_by c.given ≡ map lent_by given) }
{
    let mut given = given;
    let firsts = take_firsts(alloc, task.locals.as_slice(), &mut given)?;
    let locals = mem::replace(&mut task.locals, firsts);
    Ok(Caller { locals, given })
}

/// The caller goes on: each lent reference takes what its parameter was, and the rest of the callee goes.
#[tactic(auto, using(crate::proofs::EntryLemmas::by_back))]
pub fn finish(task: &mut Task, caller: Caller) -> Result<(), NoMemory>
    ensures { OnOk result (now_of task.new ≡ with_own (now_of task.old) (returned 0 (own_by caller.locals) (map passed_by caller.given) (now_of task.old).own)) }
{
    let mut callee = mem::replace(&mut task.locals, caller.locals);
    for (i, passed) in caller.given.as_slice().iter().enumerate() {
        if let Passed::Lent(r) = passed {
            let held = drop_local(&mut callee, i);
            set_local(&mut task.locals, *r, held)?;
        }
    }
    Ok(())
}
