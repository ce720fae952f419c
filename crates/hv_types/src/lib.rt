//! The rules of types over a whole program.
#![tactic(auto)]

mod counts;
mod decls;
mod fields;
mod here;
mod holders;
mod phases;
mod rounds;
mod structs;
mod walk;

pub use phases::names_and_types;
