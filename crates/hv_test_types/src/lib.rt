//! Tests of paths, scopes, and the rules of names and types, over sources and over trees.
#![tactic(auto)]

#[cfg(test)]
mod checks;
#[cfg(test)]
mod counted;
#[cfg(test)]
mod judging;
#[cfg(test)]
mod naming;
#[cfg(test)]
mod parts;
#[cfg(test)]
mod paths;
#[cfg(test)]
mod rows;
#[cfg(test)]
mod scopes;
