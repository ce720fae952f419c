//! That the grammar's functions on lists of tokens read exactly what its relation spells.
#![tactic(auto)]

mod law;

pub use law::programs_are_read_exactly;
