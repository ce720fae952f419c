//! The locals of a body that need a state, since some event may find them without a value.
#![tactic(auto)]

mod event;
mod law;
mod needs;
mod sight;
mod standing;

pub use law::locals_without_state_are_filled;
pub use needs::locals_with_state;
