// Bindings: locals that are declared, and accesses that stand for a place.

ghost use Rattle.std.specs.Prelude.{◌≡◌, ℕ};
ghost use Rattle.hv_sem_flat.specs.Parts as parts;
ghost use Rattle.hv_partial.specs.HeldTree.{held_tree};
ghost use Rattle.hv_eval_state.specs.Gives.{Gives, from};
ghost use Rattle.hv_eval_state.specs.Opened.{mode_of};
ghost use Rattle.hv_eval_state.specs.Spots.{spot_of};
ghost use Rattle.hv_eval_env.specs.Level.{locals_in};
ghost use Rattle.hv_eval_blocks.specs.Statements.{went_of};

use crate::ways::Went;
use hv_eval_env::Level;
use hv_eval_state::{Access, Halt, Mode, Spot, Task, open, put_there};
use hv_items::Items;
use hv_partial::Held;
use hv_tree::Name;
use std::alloc::Global;

/// A local begins with a value.
#[tactic(auto, unfolding(hv_sem_copying::specs::Run::and_then, hv_sem_copying::specs::Run::pure))]
pub fn declare<'a>(level: Level<'a>, task: &mut Task, name: &Name, held: Held) -> Result<Went, Halt>
    ensures { (n : ℕ) → Gives went_of (from (parts.declared (locals_in level.entry) name.now (held_tree held)) n task.old) result task.new }
{
    let root = level.local(task, name)?;
    let spot = Spot {
        root,
        path: Items::new(level.alloc),
    };
    put_there(task, &spot, held)?;
    Ok(Went::Goes)
}

/// A reference stands for a place up to the block's end.
#[tactic(auto, unfolding(hv_sem_copying::specs::Run::and_then, hv_sem_copying::specs::Run::pure))]
pub fn opening(
    alloc: Global,
    task: &mut Task,
    mode: Mode,
    reference: usize,
    place: Spot,
) -> Result<Went, Halt>
    ensures { (n : ℕ) → Gives went_of (from (parts.opening (mode_of mode) reference (spot_of place)) n task.old) result task.new }
{
    let access = Access {
        mode,
        reference,
        place,
    };
    open(alloc, task, &access)?;
    Ok(Went::Opens(access))
}
