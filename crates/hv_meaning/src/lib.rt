//! What a safe program's root does, by its meaning.
#![tactic(auto)]

mod kinds;
mod root;
mod tie;

pub use hv_sem_copying::TrapKind;
pub use hv_task_tree::{End, TaskNode};
pub use root::{evaluate, plain};
