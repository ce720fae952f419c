//! The program of a source, or the first rule that the source violates.
#![tactic(auto)]

mod phases;

pub use phases::{CheckEnd, check};
