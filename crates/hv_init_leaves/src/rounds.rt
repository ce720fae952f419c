// How many leaves structs have, in rounds.
ghost use Rattle.std.specs.Prelude.{◌≡◌, ◌+◌, IfOk, Some, None, get_or, map};
ghost use Rattle.hv_init_leaves.specs.Rounds as spec;

use hv_items::Items;
use std::alloc::{AllocError as NoMemory, Global};

/// A struct that is deeper is refused.
const MOST_DEPTH: usize = 100;

pub(crate) fn add(a: u32, b: u32) -> Result<u32, NoMemory>
    ensures { IfOk result (λ sum. sum ≡ a + b) }
{
    a.checked_add(b).ok_or(NoMemory)
}

fn add_known(sum: Option<u32>, size: Option<u32>) -> Result<Option<u32>, NoMemory>
    ensures { IfOk result (λ both. both ≡ spec.add_known sum size) }
{
    match (sum, size) {
        (Some(sum), Some(size)) => Ok(Some(add(sum, size)?)),
        _ => Ok(None),
    }
}

fn known_at(known: &[Option<u32>], number: Option<usize>) -> Option<u32>
    ensures { result ≡ spec.known_at known.now number }
{
    match number {
        Some(number) => known.get(number).copied().unwrap_or(None),
        None => Some(1),
    }
}

fn row_sum(known: &[Option<u32>], row: &[Option<usize>]) -> Result<Option<u32>, NoMemory>
    ensures { IfOk result (λ sum. sum ≡ spec.sum_from known.now (Some 0) row.now) }
{
    let mut sum = Some(0);
    for number in row {
        sum = add_known(sum, known_at(known, *number))?;
    }
    Ok(sum)
}

fn row_size(known: &[Option<u32>], row: &[Option<usize>]) -> Result<Option<u32>, NoMemory>
    ensures { IfOk result (λ size. size ≡ spec.row_size known.now row.now) }
{
    match row {
        [] => Ok(Some(1)),
        _ => row_sum(known, row),
    }
}

fn round(
    alloc: Global,
    known: &[Option<u32>],
    table: &[Items<Option<usize>>],
) -> Result<Items<Option<u32>>, NoMemory>
    ensures { IfOk result (λ next. next ≡ map (spec.row_size known.now) table.now) }
{
    let mut next = Items::new(alloc);
    for row in table {
        next.push(row_size(known, row.as_slice())?)?;
    }
    Ok(next)
}

#[tactic(auto, unfolding(crate::specs::Rounds::known_last))]
fn known_last(alloc: Global, table: &[Items<Option<usize>>]) -> Result<Items<Option<u32>>, NoMemory>
    ensures { IfOk result (λ known. known ≡ spec.known_last table.now) }
{
    let mut known = Items::new(alloc);
    for _level in 0..MOST_DEPTH {
        known = round(alloc, known.as_slice(), table)?;
    }
    Ok(known)
}

fn all_of(alloc: Global, known: &[Option<u32>]) -> Result<Items<u32>, NoMemory>
    ensures { IfOk result (λ sizes. map Some sizes ≡ known.now) }
{
    let mut sizes = Items::new(alloc);
    for size in known {
        match size {
            Some(size) => sizes.push(*size)?,
            None => return Err(NoMemory),
        }
    }
    Ok(sizes)
}

/// How many leaves each struct has.
pub(crate) fn sizes_of(
    alloc: Global,
    table: &[Items<Option<usize>>],
) -> Result<Items<u32>, NoMemory>
    ensures { IfOk result (λ sizes. map Some sizes ≡ spec.known_last table.now) }
{
    let known = known_last(alloc, table)?;
    all_of(alloc, known.as_slice())
}
