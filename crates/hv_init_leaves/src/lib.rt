//! The leaves of a body's locals by number, one local after the other.
#![tactic(auto)]

mod leaves;
mod reached;
mod rounds;
mod row;
mod sizes;
mod table;

pub use leaves::Leaves;
pub use sizes::Sizes;
