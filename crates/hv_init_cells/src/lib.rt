//! Laws of initialisation: cells that tell of leaves, and acts that refuse what violates its rules.
#![tactic(auto)]

mod law;

pub use law::{
    acts_refuse_violations, cells_tell_of_leaves, first_of_bodies_is_first_of_program,
    first_refusals_are_first_violations, merged_layouts_fit, plain_layouts_fit,
};
