// What meets in a cell.
ghost use Rattle.std.specs.Prelude.{List, ℕ};
ghost use Rattle.hv_cell.specs.Tokens.{Home};

use crate::tokens::Awaiter;
use hv_tree::Named;

/// Which results and stacks meet in cells.
pub trait Joined {
    /// What the results and stacks of some cells have in common: plain data, as the run that
    /// they are of.
    type Kin;

    /// The stack that an awaiter brings.
    type Stack;

    /// The result that a finisher brings.
    type Done;

    // The task that a result is of.
    ghost done_id: { Self.Done → List ℕ };

    // The task that a stack awaits.
    ghost awaits: { Self.Stack → List ℕ };

    ghost done_kin: { Self.Done → Self.Kin };

    ghost stack_kin: { Self.Stack → Self.Kin };

    // Where each right that a stack holds belongs.
    ghost tokens: { Self.Stack → List (Home Self.Kin) };
}

impl<K> Named for Awaiter<K> {
    ghost id = { λ a. a.task };
}
