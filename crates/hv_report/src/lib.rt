//! The texts of refusals and of runs.
#![tactic(auto)]

mod refusal;
mod run;

pub use refusal::refusal_text;
pub use run::report;
