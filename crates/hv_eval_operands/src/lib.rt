//! Places, captures and operands: what each does over a function that evaluates expressions.
#![tactic(auto)]

mod chains;
mod closures;
mod filling;
mod linking;
mod listed;
mod places;

pub use chains::{chain, prefix};
pub use closures::{captured, lambda};
pub use filling::filled;
pub use linking::links;
pub use listed::{array, values};
pub use places::{copied, counted, found, moved, named, place_in};
