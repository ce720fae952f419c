// A task under way, and why it goes no further.

ghost use Rattle.hv_eval_state.specs.declared.task.Halt.TheVariants.{NoMemory};
ghost use Rattle.std.specs.Prelude.{◌≡◌};

use hv_items::Items;
use hv_partial::Held;
use hv_sem_copying::{Cause, TrapKind};
use hv_tree::Place;
use std::alloc::AllocError;

/// The steps left, the output so far, and the locals of the body that runs, by their numbers.
#[derive(Drop)]
pub struct Task {
    pub steps: u64,
    pub output: Items<u8>,
    pub locals: Items<Held>,
}

/// Why a task goes no further.
#[derive(Clone, Copy, Debug, PartialEq, Eq)]
pub enum Halt {
    NoMemory,
    Stuck(Cause),
    Trap(TrapKind, Place),
    Spent(Place),
}

impl From<AllocError> for Halt {
    ghost from_gives = { λ e h. h ≡ NoMemory };

    fn from(_: AllocError) -> Halt {
        Halt::NoMemory
    }
}
