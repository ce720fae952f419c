//! What each end of a body belongs to: the locals that are written back, the handles that end, and whether a result is missing.
#![tactic(auto)]

mod body;
mod count;
mod span;
mod walk;
mod words;

pub use body::ends_of;
pub use span::{End, Span};
pub use words::{ends_behind, is_end, without_entry};
