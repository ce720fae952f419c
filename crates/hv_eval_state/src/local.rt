// Locals by their numbers.

ghost use Rattle.std.specs.Prelude.{◌≡◌, ◌<◌, OnOk, map, length, slice_set, get_or};
ghost use Rattle.hv_sem_copying.specs.Copying.{change_at};
ghost use Rattle.hv_partial.specs.HeldTree.{held_tree};
ghost use Rattle.hv_value.specs.ValueTree.{ValueTree, Hole};

use hv_items::Items;
use hv_partial::Held;
use std::alloc::AllocError as NoMemory;

/// Puts a tree under a number. Numbers before it that have none yet hold holes.
#[tactic(auto, using(crate::proofs::LocalLemmas::by_change))]
pub fn set_local(locals: &mut Items<Held>, x: usize, held: Held) -> Result<(), NoMemory>
    ensures { OnOk result (map held_tree locals.new ≡ change_at (map held_tree locals.old) x (held_tree held)) }
{
    pad(locals, x)?;
    locals.set(x, held);
    Ok(())
}

// Holes stand under each number up to this one that has nothing yet.
#[tactic(auto, using(crate::proofs::LocalLemmas::push_hole))]
fn pad(locals: &mut Items<Held>, x: usize) -> Result<(), NoMemory>
    ensures within { OnOk result (x < length locals.new) }
    ensures same { OnOk result ((t : ValueTree) → change_at (map held_tree locals.new) x t ≡ change_at (map held_tree locals.old) x t) }
{
    while locals.len() <= x {
        locals.push(Held::Hole)?;
    }
    Ok(())
}

/// Takes what is under a number, and leaves a hole there.
#[tactic(auto, using(crate::proofs::LocalLemmas::by_change))]
pub fn drop_local(locals: &mut Items<Held>, x: usize) -> Held
    ensures taken { held_tree result ≡ get_or (map held_tree locals.old) x Hole }
    ensures left { map held_tree locals.new ≡ slice_set (map held_tree locals.old) x Hole }
{
    if x < locals.len() {
        locals.replace(x, Held::Hole)
    } else {
        Held::Hole
    }
}
