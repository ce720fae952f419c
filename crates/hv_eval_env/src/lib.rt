//! Where in a program a run is, its bodies and names by what they are found by, and what evaluates its parts.
#![tactic(auto)]

mod callee;
mod firsts;
mod level;
mod names;
mod parts;
mod program;
mod scoped;

pub use callee::Callee;
pub use level::Level;
pub use names::value_callee;
pub use parts::Parts;
pub use program::Program;
pub use scoped::Scoped;
