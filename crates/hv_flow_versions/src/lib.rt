//! What cells may be along a walk through sides and turns, with what waits for the end of each.
#![tactic(auto)]

mod cell;
mod closing;
mod histories;
mod history;
mod part;
mod stack;
mod state;
mod trail;
mod version;
mod versions;

pub use cell::Cell;
pub use versions::Versions;
