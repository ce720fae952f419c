//! The grammar as functions on lists of tokens, and the cursor that reads such a list.
#![tactic(auto)]

mod cursor;
mod parts;
mod stop;
mod strength;

pub use cursor::Cursor;
pub use parts::ElsePart;
pub use stop::Stop;
pub use strength::Strength;
