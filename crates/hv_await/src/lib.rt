//! The first violation of the rules on handles.
#![tactic(auto)]

mod acts;
mod callee;
mod changing;
mod judge;
mod ops;

pub use judge::await_refusal;
