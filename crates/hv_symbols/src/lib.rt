//! A list of texts in which each is found at once.
#![tactic(auto)]

mod texts;

pub use texts::Texts;
