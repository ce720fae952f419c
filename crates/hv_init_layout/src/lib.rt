//! Which cells the leaves of a body's locals have: leaves that no event parts share one.
#![tactic(auto)]

mod cuts;
mod ends;
mod layout;
mod tracked;

pub use layout::Layout;
