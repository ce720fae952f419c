//! Trees in which holes may stand, as locals hold them: places, operators, sizes and texts.
#![tactic(auto)]

mod arrays;
mod compare;
mod convert;
mod copying;
mod holes;
mod measure;
mod operate;
mod place;
mod show;
mod tree;
mod way;

pub use arrays::{Length, filled, length_of, length_to_fill};
pub use compare::equal;
pub use convert::{of_value, to_value};
pub use copying::copy;
pub use holes::{emptied, is_whole};
pub use measure::size;
pub use operate::{Computed, binary, unary};
pub use place::{get, put, replace, take_out};
pub use show::text;
pub use tree::Held;
pub use way::{Link, Way, walk};
