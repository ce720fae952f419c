//! Tests of join cells, two threads that meet among them.
#![tactic(auto)]

#[cfg(test)]
mod cells;
