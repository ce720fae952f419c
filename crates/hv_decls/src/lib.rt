//! What is declared, who sees it, and static places: types, locals, where each part of a program stands.
#![tactic(auto)]

mod path;

pub use path::{StaticPath, StaticStep, has_index, overlap};
