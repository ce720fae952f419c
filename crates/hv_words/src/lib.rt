//! The words behind the program's name as an order, by the project's own rules.
#![tactic(auto)]

mod line;
mod number;
mod order;
mod said;
mod settings;
mod subcommand;
#[cfg(test)]
mod tests;

pub use order::{Order, WordsEnd, read_words};
