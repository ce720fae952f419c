//! That what tokens spell is formed as the grammar forms it, with each part at a place of its own.
#![tactic(auto)]

mod law;

pub use law::spelled_trees_are_formed;
