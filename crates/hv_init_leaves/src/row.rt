// Parts that stand one after the other.
ghost use Rattle.std.specs.Prelude.{◌≡◌, IfOk};
ghost use Rattle.hv_init_leaves.specs.Rows as spec;

use crate::rounds::add;
use hv_items::Items;
use std::alloc::{AllocError as NoMemory, Global};

/// A field of a struct, or a local of a body.
#[derive(Clone, Copy)]
pub struct Part {
    /// How many leaves come before.
    pub begin: u32,
    /// The number of the struct that it is; what is none is a leaf.
    pub number: Option<usize>,
}

/// The fields of a struct, or the locals of a body.
#[derive(Drop)]
pub struct Row {
    pub parts: Items<Part>,
    /// Where the leaves of all end.
    pub end: u32,
}

/// How many leaves a part has.
pub(crate) fn size_at(sizes: &[u32], number: Option<usize>) -> u32
    ensures { result ≡ spec.size_at sizes.now number }
{
    match number {
        Some(number) => sizes.get(number).copied().unwrap_or(1),
        None => 1,
    }
}

/// Parts, by the structs that they are, where so many leaves come before the first one.
pub(crate) fn row_from(
    alloc: Global,
    sizes: &[u32],
    first: u32,
    numbers: &[Option<usize>],
) -> Result<Row, NoMemory>
    ensures { IfOk result (λ row. row ≡ spec.row_from sizes.now first numbers.now) }
{
    let mut parts = Items::new(alloc);
    let mut end = first;
    for number in numbers {
        let number = *number;
        parts.push(Part { begin: end, number })?;
        end = add(end, size_at(sizes, number))?;
    }
    Ok(Row { parts, end })
}
