//! A list and a box that contracts see as what they hold, and in which a recursive type may stand.
#![tactic(auto)]

mod boxed;
mod items;
mod kept;

pub use boxed::Boxed;
pub use items::{Items, at};
pub use kept::beside;
