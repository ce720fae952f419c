//! The first violation of the rules on initialisation, over all traces of all bodies.
#![tactic(auto)]

mod asks;
mod init;
mod sets;
mod words;

pub use init::init_refusal;
