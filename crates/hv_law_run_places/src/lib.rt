//! That each place at which a run ends stands in the program.
#![tactic(auto)]

mod law;

pub use law::nodes_name_places_of_the_tree;
