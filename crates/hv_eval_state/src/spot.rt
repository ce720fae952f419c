// Places in locals: where a way leads, and reading, writing and moving there.

ghost use Rattle.std.specs.Prelude.{◌≡◌, ℕ, IfOk, OnOk, map, option_map, get_or, is_some};
ghost use Rattle.std.specs.Option.{option_copied};
ghost use Rattle.hv_value.specs.ValueTree.{Hole};
ghost use Rattle.hv_value.specs.Places as places;
ghost use Rattle.hv_sem_copying.specs.Copying.{change_at};
ghost use Rattle.hv_value.specs.Walk as walks;
ghost use Rattle.hv_partial.specs.HeldTree.{held_tree};
ghost use Rattle.hv_partial.specs.Ways.{links_of, way_of};
ghost use Rattle.hv_sem_flat.specs.Accesses as flat;
ghost use Rattle.hv_sem_flat.specs.Parts as parts;
ghost use Rattle.hv_eval_state.specs.Gives.{Gives, from, nothing};
ghost use Rattle.hv_eval_state.specs.Spots as spots;
ghost use Rattle.hv_eval_state.specs.Spots.{spot_of, copied_there, Found};

use crate::local::{drop_local, set_local};
use crate::task::{Halt, Task};
use hv_items::{Items, at};
use hv_partial::{Held, Link, Way, copy, get, is_whole, replace, size, take_out, walk};
use hv_sem_copying::{Cause, TrapKind};
use hv_tree::Place;
use hv_value::PathStep;
use std::alloc::{AllocError as NoMemory, Global};

/// A place in a local.
#[derive(Drop)]
pub struct Spot {
    pub root: usize,
    pub path: Items<PathStep>,
}

#[tactic(auto, using(crate::proofs::LocalLemmas::by_look, crate::proofs::LocalLemmas::by_hole))]
fn walk_local(alloc: Global, locals: &[Held], root: usize, links: &[Link]) -> Result<Way, NoMemory>
    ensures { IfOk result (λ way. way ≡ way_of (walks.walk (links_of links.now) (get_or (map held_tree locals.now) root Hole))) }
{
    match at(locals, root) {
        Some(held) => walk(alloc, held, links),
        None => walk(alloc, &Held::Hole, links),
    }
}

/// Where the indices lead in a local, each tested in order.
#[tactic(auto, using(crate::proofs::SpotLemmas::arrived_way), unfolding(hv_sem_flat::specs::Accesses::look, hv_sem_copying::specs::Run::and_then, hv_sem_copying::specs::Run::mine, hv_sem_copying::specs::Run::pure, hv_sem_copying::specs::Run::trap, hv_sem_copying::specs::Run::halt))]
pub fn look(alloc: Global, task: &Task, root: usize, links: &[Link]) -> Result<Spot, Halt>
    ensures { (n : ℕ) → Gives spot_of (from (flat.look root (links_of links.now)) n task.now) result task.now }
{
    match walk_local(alloc, task.locals.as_slice(), root, links)? {
        Way::Reaches(path) => Ok(Spot { root, path }),
        Way::Outside(at) => Err(Halt::Trap(TrapKind::Index, at)),
        Way::Lost => Err(Halt::Stuck(Cause::Holes)),
    }
}

// What stands at the place, unless that is nothing or a hole.
#[tactic(auto, using(crate::proofs::LocalLemmas::by_look))]
fn find<'a>(locals: &'a [Held], spot: &Spot) -> Option<&'a Held>
    ensures { Found (places.get (get_or (map held_tree locals.now) spot.now.root Hole) spot.now.path) (option_map held_tree (option_copied result)) }
{
    match at(locals, spot.root) {
        Some(held) => get(held, spot.path.as_slice()),
        None => None,
    }
}

/// Puts a tree at the place, and tells whether the place is there.
#[tactic(auto, using(crate::proofs::LocalLemmas::change_dropped))]
pub fn put_local(locals: &mut Items<Held>, spot: &Spot, held: Held) -> Result<bool, NoMemory>
    ensures there { IfOk result (λ b. b ≡ is_some (places.get (get_or (map held_tree locals.old) spot.now.root Hole) spot.now.path)) }
    ensures new { OnOk result (map held_tree locals.new ≡ change_at (map held_tree locals.old) spot.now.root (places.put (get_or (map held_tree locals.old) spot.now.root Hole) spot.now.path (held_tree held))) }
{
    let mut place = drop_local(locals, spot.root);
    let old = replace(&mut place, spot.path.as_slice(), held);
    set_local(locals, spot.root, place)?;
    Ok(old.is_some())
}

/// Puts a tree at the place, which must be there.
#[tactic(auto, using(crate::proofs::SpotLemmas::by_put))]
pub fn put_there(task: &mut Task, spot: &Spot, held: Held) -> Result<(), Halt>
    ensures { (n : ℕ) → Gives nothing (from (flat.put_at (spot_of spot.now) (held_tree held)) n task.old) result task.new }
{
    if !put_local(&mut task.locals, spot, held)? {
        return Err(Halt::Stuck(Cause::Holes));
    }
    Ok(())
}

/// Copies what stands at the place, which is paid at `at`. No hole may be in it.
#[tactic(auto, using(crate::proofs::SpotLemmas::by_copy))]
pub fn copy_there(alloc: Global, task: &mut Task, spot: &Spot, at: Place) -> Result<Held, Halt>
    ensures { (n : ℕ) → Gives held_tree (from (copied_there at (spot_of spot.now)) n task.old) result task.new }
{
    let Some(held) = find(task.locals.as_slice(), spot) else {
        return Err(Halt::Stuck(Cause::Holes));
    };
    if !is_whole(held) {
        return Err(Halt::Stuck(Cause::Holes));
    }
    match size(held, task.steps) {
        Some(cost) => {
            let copy = copy(alloc, held)?;
            task.steps -= cost;
            Ok(copy)
        }
        None => Err(Halt::Spent(at)),
    }
}

fn whole_there(place: &Held, path: &[PathStep]) -> bool
    ensures { result ≡ spots.whole_there (places.get (held_tree place.now) path.now) }
{
    match get(place, path) {
        Some(held) => is_whole(held),
        None => false,
    }
}

/// Takes what stands at the place, where holes stay behind. No hole may be in it.
#[tactic(auto, using(crate::proofs::SpotLemmas::by_move))]
pub fn take_there(alloc: Global, task: &mut Task, spot: &Spot) -> Result<Held, Halt>
    ensures { (n : ℕ) → Gives held_tree (from (parts.moved (spot_of spot.now)) n task.old) result task.new }
{
    let mut place = drop_local(&mut task.locals, spot.root);
    if !whole_there(&place, spot.path.as_slice()) {
        return Err(Halt::Stuck(Cause::Holes));
    }
    let taken = take_out(alloc, &mut place, spot.path.as_slice())?;
    set_local(&mut task.locals, spot.root, place)?;
    match taken {
        Some(held) => Ok(held),
        None => Err(Halt::Stuck(Cause::Holes)),
    }
}
