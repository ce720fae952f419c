//! What a program declares, found by name, and its bodies.
#![tactic(auto)]

mod bodies;
mod bound;
mod decls;
mod functions;
mod known;
mod listed;
mod locals;
mod structs;
mod types;
mod visible;

pub use bodies::{Body, bodies_of};
pub use bound::{captures_of, entry_of, push_bound, visible_first};
pub use decls::Declared;
pub use known::{Kind, Known, value_type};
pub use listed::body_locals;
pub use locals::Locals;
pub use types::{behind, element_at, field_at, type_behind};
pub use visible::Visible;
