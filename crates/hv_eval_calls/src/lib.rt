//! What is passed, and calls: callees, arguments, constructions, and bodies that are entered and left.
#![tactic(auto)]

mod args;
mod arguments;
mod bodies;
mod calls;
mod children;
mod entry;
mod given;
mod passed;

pub use bodies::enter;
pub use calls::{call, callee};
pub use children::{Spawn, child};
pub use passed::Passed;
