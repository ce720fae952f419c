//! That every place that a refusal names stands in the program, and is that of a token that spells it.
#![tactic(auto)]

mod law;

pub use law::{
    bodies_end_apart, trees_name_places_of_their_tokens, violations_name_places_of_the_tree,
};
