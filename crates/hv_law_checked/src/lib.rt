//! That tokens, programs, runs and refusals name places of the source, and that accepted programs are never stuck.
#![tactic(auto)]

mod law;

pub use law::{
    accepted_programs_are_safe, programs_lie_inside_their_source,
    refusals_name_places_of_the_source, refusals_stand_behind_characters,
    runs_and_refusals_name_places_inside_the_source, tokens_begin_inside_the_source,
    unread_sources_violate_that_first,
};
