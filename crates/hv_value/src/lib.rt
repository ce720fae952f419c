//! Values: trees of numbers, truth values, structs, arrays and functions.
#![tactic(auto)]

mod compare;
mod copying;
mod measure;
mod place;
mod show;
mod value;

pub use compare::{equal, has_function};
pub use copying::clone_value;
pub use measure::size;
pub use place::{get, put};
pub use show::text;
pub use value::{PathStep, Shape, Value};
