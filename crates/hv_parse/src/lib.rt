//! The one tree that tokens spell, or the exact place of the refusal.
#![tactic(auto)]

mod bindings;
mod branches;
mod declarations;
mod items;
mod knot;
mod marks;
mod parsed;
mod statements;
mod tasks;

pub use parsed::{ParseEnd, parse};
