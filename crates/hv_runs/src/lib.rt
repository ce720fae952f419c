//! The programs that only read through their parameters and have no tasks, which run so far.
#![tactic(auto)]

mod ends;
mod program;
mod types;
mod walk;

pub use program::runs;
