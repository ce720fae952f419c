//! Lemmas of no language: on Booleans by cases, on lists, on what stands in them, on lists turned round.
#![tactic(auto)]
