//! The printed form of a program.
#![tactic(auto)]

mod law;
mod operators;
mod program;
mod statements;
mod types;

pub use law::{
    printed_forms_tell_programs_apart, printed_programs_are_read_back, read_programs_are_written,
};
pub use program::print;
