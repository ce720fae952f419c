//! Statements and blocks, over functions that evaluate their parts.
#![tactic(auto)]

mod bindings;
mod branches;
mod hollow;
mod loops;
mod spawning;
mod statement;
mod stmts;
mod ways;

pub use stmts::Stmts;
