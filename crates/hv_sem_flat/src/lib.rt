//! The copying meaning with the open accesses in a list, as code keeps them.
#![tactic(auto)]

mod law;

pub use law::flat_is_copying;
