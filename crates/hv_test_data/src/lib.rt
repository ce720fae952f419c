//! Tests of lists, trees, values and the table of symbols.
#![tactic(auto)]

#[cfg(test)]
mod items;
#[cfg(test)]
mod partial;
#[cfg(test)]
mod symbols;
#[cfg(test)]
mod trees;
#[cfg(test)]
mod values;
