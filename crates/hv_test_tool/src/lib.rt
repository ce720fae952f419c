//! The worked rows of the whole tool, over sources and sinks in memory.
#![tactic(auto)]

#[cfg(test)]
mod faults;
#[cfg(test)]
mod large;
#[cfg(test)]
mod real;
#[cfg(test)]
mod rows;
#[cfg(test)]
mod running;
#[cfg(test)]
mod runs;
#[cfg(test)]
mod trickle;
