// How many leaves structs have.
ghost use Rattle.std.specs.Prelude.{◌≡◌, ◌+◌, IfOk, get_or, map};
ghost use Rattle.hv_types.specs.Counts as spec;

use crate::fields::{FieldBase, FieldType, MOST_DEPTH};
use hv_items::Items;
use std::alloc::{AllocError as NoMemory, Global};

/// A struct with more leaves is refused.
pub(crate) const MOST_LEAVES: usize = 4096;

fn capped(count: usize) -> usize
    ensures { result ≡ spec.capped count }
{
    if count > MOST_LEAVES {
        MOST_LEAVES + 1
    } else {
        count
    }
}

fn add(sum: usize, count: usize) -> usize
    ensures { result ≡ spec.capped (sum + count) }
{
    capped(sum.saturating_add(count))
}

/// The count at this place, 1 where there is none.
pub(crate) fn count_at(counts: &[usize], place: usize) -> usize
    ensures { result ≡ get_or counts.now place 1 }
{
    counts.get(place).copied().unwrap_or(1)
}

fn base_count(counts: &[usize], base: FieldBase) -> usize
    ensures { result ≡ spec.base_count counts.now base }
{
    match base {
        FieldBase::Struct(number) => count_at(counts, number),
        _ => 1,
    }
}

fn field_count(counts: &[usize], field: FieldType) -> usize
    ensures { result ≡ spec.field_count counts.now field }
{
    if field.arrays == 0 {
        base_count(counts, field.base)
    } else {
        1
    }
}

fn row_sum(counts: &[usize], row: &[FieldType]) -> usize
    ensures { result ≡ spec.sum_from counts.now 0 row.now }
{
    let mut sum = 0;
    for field in row {
        sum = add(sum, field_count(counts, *field));
    }
    sum
}

fn row_count(counts: &[usize], row: &[FieldType]) -> usize
    ensures { result ≡ spec.row_count counts.now row.now }
{
    match row_sum(counts, row) {
        0 => 1,
        sum => sum,
    }
}

fn round(
    alloc: Global,
    rows: &[Items<FieldType>],
    counts: &[usize],
) -> Result<Items<usize>, NoMemory>
    ensures { IfOk result (λ next. next ≡ map (spec.row_count counts.now) rows.now) }
{
    let mut next = Items::new(alloc);
    for row in rows {
        next.push(row_count(counts, row.as_slice()))?;
    }
    Ok(next)
}

/// How many leaves each struct has, as far as that is accepted.
#[tactic(auto, unfolding(crate::specs::Counts::all_counts))]
pub(crate) fn counts_of(alloc: Global, rows: &[Items<FieldType>]) -> Result<Items<usize>, NoMemory>
    ensures { IfOk result (λ counts. counts ≡ spec.all_counts rows.now) }
{
    let mut counts = Items::new(alloc);
    for _most in 0..MOST_DEPTH {
        counts = round(alloc, rows, counts.as_slice())?;
    }
    Ok(counts)
}
