// Accesses: a reference stands for a place as a copy, which goes back when the access closes.

ghost use Rattle.std.specs.Prelude.{◌≡◌, ℕ, IfOk, map, option_map, get_or, is_some};
ghost use Rattle.hv_value.specs.ValueTree.{Hole};
ghost use Rattle.hv_value.specs.Places as places;
ghost use Rattle.hv_sem_flat.specs.Accesses as flat;
ghost use Rattle.hv_partial.specs.HeldTree.{held_tree};
ghost use Rattle.hv_eval_state.specs.Gives.{Gives, from, nothing};
ghost use Rattle.hv_eval_state.specs.Spots.{spot_of};
ghost use Rattle.hv_eval_state.specs.Opened.{access_of, last_first};

use crate::local::{drop_local, set_local};
use crate::spot::{Spot, put_local};
use crate::task::{Halt, Task};
use hv_items::at;
use hv_partial::{Held, copy, get};
use hv_sem_copying::Cause;
use std::alloc::{AllocError as NoMemory, Global};

/// What an access may do with its place.
#[derive(Clone, Copy, Debug, PartialEq, Eq)]
pub enum Mode {
    Reads,
    Writes,
    /// As `Writes`, from holes on.
    Sets,
}

/// A reference, by its number, that stands for a place.
#[derive(Drop)]
pub struct Access {
    pub mode: Mode,
    pub reference: usize,
    pub place: Spot,
}

#[tactic(auto, using(crate::proofs::LocalLemmas::by_look, crate::proofs::LocalLemmas::by_hole))]
fn copy_spot(alloc: Global, locals: &[Held], spot: &Spot) -> Result<Option<Held>, NoMemory>
    ensures { IfOk result (λ o. option_map held_tree o ≡ places.get (get_or (map held_tree locals.now) spot.now.root Hole) spot.now.path) }
{
    match at(locals, spot.root) {
        Some(held) => match get(held, spot.path.as_slice()) {
            Some(there) => Ok(Some(copy(alloc, there)?)),
            None => Ok(None),
        },
        None => match spot.path.as_slice() {
            [] => Ok(Some(Held::Hole)),
            [_, ..] => Ok(None),
        },
    }
}

#[tactic(auto, using(crate::proofs::LocalLemmas::by_look, crate::proofs::LocalLemmas::by_hole))]
fn is_there(locals: &[Held], spot: &Spot) -> bool
    ensures { result ≡ is_some (places.get (get_or (map held_tree locals.now) spot.now.root Hole) spot.now.path) }
{
    match at(locals, spot.root) {
        Some(held) => get(held, spot.path.as_slice()).is_some(),
        None => match spot.path.as_slice() {
            [] => true,
            [_, ..] => false,
        },
    }
}

/// What stands at the place is copied, and the reference stands for it.
#[tactic(auto, using(crate::proofs::AccessLemmas::by_open))]
pub fn open(alloc: Global, task: &mut Task, access: &Access) -> Result<(), Halt>
    ensures { (n : ℕ) → Gives nothing (from (flat.opened (access_of access.now)) n task.old) result task.new }
{
    match copy_spot(alloc, task.locals.as_slice(), &access.place)? {
        Some(held) => {
            set_local(&mut task.locals, access.reference, held)?;
            Ok(())
        }
        None => Err(Halt::Stuck(Cause::Holes)),
    }
}

/// A reference that is closed stands for nothing. What it stood for goes back, unless the access only reads.
pub fn close(task: &mut Task, access: &Access) -> Result<(), Halt>
    ensures { (n : ℕ) → Gives nothing (from (flat.closed (access_of access.now)) n task.old) result task.new }
{
    match access.mode {
        Mode::Reads => forget(task, access.reference),
        Mode::Writes | Mode::Sets => give_back(task, access.reference, &access.place),
    }
}

#[tactic(auto, using(crate::proofs::AccessLemmas::by_forget))]
fn forget(task: &mut Task, reference: usize) -> Result<(), Halt>
    ensures { (n : ℕ) → Gives nothing (from (flat.dropped reference) n task.old) result task.new }
{
    set_local(&mut task.locals, reference, Held::Hole)?;
    Ok(())
}

#[tactic(auto, using(crate::proofs::AccessLemmas::by_return))]
fn give_back(task: &mut Task, reference: usize, place: &Spot) -> Result<(), Halt>
    ensures { (n : ℕ) → Gives nothing (from (flat.returned reference (spot_of place.now)) n task.old) result task.new }
{
    if place.root == reference {
        return forget_own(task, place);
    }
    let copy = drop_local(&mut task.locals, reference);
    if !put_local(&mut task.locals, place, copy)? {
        return Err(Halt::Stuck(Cause::Holes));
    }
    set_local(&mut task.locals, reference, Held::Hole)?;
    Ok(())
}

// What stood in itself goes with it.
#[tactic(auto, using(crate::proofs::AccessLemmas::by_forget_own))]
fn forget_own(task: &mut Task, place: &Spot) -> Result<(), Halt>
    ensures { (n : ℕ) → Gives nothing (from (flat.returned place.now.root (spot_of place.now)) n task.old) result task.new }
{
    if !is_there(task.locals.as_slice(), place) {
        return Err(Halt::Stuck(Cause::Holes));
    }
    set_local(&mut task.locals, place.root, Held::Hole)?;
    Ok(())
}

/// Closes each access, the last one first.
#[tactic(auto, using(crate::proofs::AccessLemmas::by_all), unfolding(hv_sem_copying::specs::Run::pure))]
pub fn close_all(task: &mut Task, accesses: Vec<Access>) -> Result<(), Halt>
    ensures { (n : ℕ) → Gives nothing (from (flat.all_closed (last_first accesses.items)) n task.old) result task.new }
{
    let mut accesses = accesses;
    while let Some(access) = accesses.pop() {
        if let Err(halt) = close(task, &access) {
            return Err(halt);
        }
    }
    Ok(())
}
