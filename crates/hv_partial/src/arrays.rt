// Arrays: their length, and arrays of copies.

ghost use Rattle.std.specs.Prelude.{◌≡◌, IfOk};
ghost use Rattle.hv_value.specs.ValueTree.{ValueTree, Elements};
ghost use Rattle.hv_value.specs.Operators as spec;
ghost use Rattle.hv_partial.specs.HeldTree.{held_tree, held_trees};
ghost use Rattle.hv_partial.specs.Results.{Lengths};

use crate::copying::copy;
use crate::tree::Held;
use hv_items::Items;
use std::alloc::{AllocError as NoMemory, Global};

/// A length that is asked for.
#[derive(Clone, Copy, Debug, PartialEq, Eq)]
pub enum Length {
    Right(u32),
    /// Less than 0.
    Bad,
    /// More than 1,048,576.
    TooLong,
}

/// Whether an array may be filled to this length.
pub fn length_to_fill(z: i64) -> Length
    ensures { Lengths z result }
{
    match u32::try_from(z) {
        Ok(n) if n <= 1_048_576 => Length::Right(n),
        _ if z < 0 => Length::Bad,
        _ => Length::TooLong,
    }
}

/// An array of so many copies.
#[tactic(auto, using(crate::proofs::ListLemmas::copies_row))]
pub fn filled(alloc: Global, n: u32, held: &Held) -> Result<Held, NoMemory>
    ensures { IfOk result (λ array. held_tree array ≡ Elements (spec.copies n (held_tree held.now))) }
{
    let mut copies = Vec::with_capacity(alloc, n as usize)?;
    for _ in 0..n {
        copies.push(copy(alloc, held)?)?;
    }
    Ok(Held::Array(Items::from_vec(copies)))
}

/// The length of an array.
#[tactic(auto, using(crate::proofs::ListLemmas::count_row))]
pub fn length_of(held: &Held) -> Option<usize>
    ensures { result ≡ spec.length_of (held_tree held.now) }
{
    match held {
        Held::Array(parts) => Some(parts.len()),
        _ => None,
    }
}
