//! Tests of tokens, the grammar, the parser and the printed form.
#![tactic(auto)]

#[cfg(test)]
mod grammar;
#[cfg(test)]
mod parsed;
#[cfg(test)]
mod printed;
#[cfg(test)]
mod tokens;
