//! What a task did, and how it ended, as plain data.
#![tactic(auto)]

mod node;

pub use node::{End, TaskNode};
