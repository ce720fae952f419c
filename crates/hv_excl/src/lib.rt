//! The first violation of the rules on accesses, over all traces of all bodies, and the accesses that are open at each word of a plan.
#![tactic(auto)]

mod access;
mod clash;
mod excl;
mod judge;
mod open;
mod told;

pub use access::{AccessMode, OpenAccess, Opened};
pub use excl::excl_refusal;
pub use judge::pass_word;
pub use told::{declares, told_binding};
