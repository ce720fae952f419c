//! What a program means: each access copies in, and what it may change is written back at its end.
#![tactic(auto)]

mod end;
mod law;

pub use end::{Cause, TrapKind};
pub use law::{bigger_budgets_change_nothing, budgets_are_kept, tasks_only_go_on};
