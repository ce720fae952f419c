//! Tests of what programs do, over sources, of the evaluator's steps, and of reports.
#![tactic(auto)]

#[cfg(test)]
mod reports;
#[cfg(test)]
mod rows;
#[cfg(test)]
mod running;
#[cfg(test)]
mod states;
