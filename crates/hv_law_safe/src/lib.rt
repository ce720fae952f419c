//! That an accepted program never comes to what there is no rule for.
#![tactic(auto)]

mod law;

pub use law::accepted_runs_are_safe;
