//! The first refusal of a plan of acts, in one pass over its words.
#![tactic(auto)]

mod act;
mod asked;
mod cells;
mod count;
mod first;
mod hints;
mod known;
mod pass;
mod plan;
mod waiting;

pub use act::{Act, Range};
pub use pass::first_refusal;
pub use plan::PassOp;
