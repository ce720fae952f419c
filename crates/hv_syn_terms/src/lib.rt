//! Types, parameters, places, calls and expressions, read from a cursor.
#![tactic(auto)]

mod expr;
mod grammar;
mod places;
mod primary;
mod signatures;

pub use grammar::Grammar;
pub use signatures::{bracketed_params, returned, type_at};
