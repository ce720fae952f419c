//! The first violation of the rules of names.
#![tactic(auto)]

mod declared;
mod decls;
mod entry;
mod phases;
mod program;
mod types;
mod walk;

pub use phases::names;
