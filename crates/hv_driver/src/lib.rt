//! The top call.
#![tactic(auto)]

mod answer;
mod law;
mod read;
mod status;
mod top;
mod write;

pub use law::answers_are_fixed;
pub use status::Status;
pub use top::alone;
