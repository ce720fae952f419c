// The depths of structs.
ghost use Rattle.std.specs.Prelude.{◌≡◌, ◌<◌, get_or, IfOk};
ghost use Rattle.hv_types.specs.Rounds as spec;

use crate::fields::{FieldBase, FieldType, MOST_DEPTH};
use hv_items::Items;
use std::alloc::{AllocError as NoMemory, Global};

/// The number at this place, 0 where there is none.
pub(crate) fn number_at(numbers: &[usize], place: usize) -> usize
    ensures { result ≡ get_or numbers.now place 0 }
{
    numbers.get(place).copied().unwrap_or(0)
}

// Whether a depth is known and at most this.
pub(crate) fn settled(depth: usize, most: usize) -> bool
    ensures { result ≡ spec.settled most depth }
{
    depth > 0 && depth <= most
}

fn base_fits(depths: &[usize], most: usize, base: FieldBase) -> bool
    ensures { result ≡ spec.base_fits depths.now most base }
{
    match base {
        FieldBase::Struct(number) => settled(number_at(depths, number), most),
        _ => true,
    }
}

fn fits(depths: &[usize], most: usize, field: FieldType) -> bool
    ensures { result ≡ spec.fits depths.now most field }
{
    field.arrays < most && base_fits(depths, most - field.arrays, field.base)
}

fn row_fits(depths: &[usize], most: usize, row: &[FieldType]) -> bool
    ensures { result ≡ spec.row_fits depths.now most row.now }
{
    for field in row {
        if !fits(depths, most, *field) {
            return false;
        }
    }
    true
}

fn next_depth(depths: &[usize], most: usize, row: &[FieldType], depth: usize) -> usize
    requires { most < 100 }
    ensures { result ≡ spec.next_depth depths.now most row.now depth }
{
    if depth > 0 {
        depth
    } else if row_fits(depths, most, row) {
        most + 1
    } else {
        0
    }
}

// The depths that are at most one more than `most`, where those up to `most` are known.
fn round(
    alloc: Global,
    rows: &[Items<FieldType>],
    depths: &[usize],
    most: usize,
) -> Result<Items<usize>, NoMemory>
    requires { most < 100 }
    ensures { IfOk result (λ next. next ≡ spec.round depths.now most 0 rows.now) }
{
    let mut next = Items::new(alloc);
    for (number, row) in rows.iter().enumerate() {
        let depth = number_at(depths, number);
        next.push(next_depth(depths, most, row.as_slice(), depth))?;
    }
    Ok(next)
}

/// The depth of each struct, 0 where it is greater than the greatest that is accepted.
#[tactic(auto, unfolding(crate::specs::Rounds::all_depths))]
pub(crate) fn depths(alloc: Global, rows: &[Items<FieldType>]) -> Result<Items<usize>, NoMemory>
    ensures { IfOk result (λ depths. depths ≡ spec.all_depths rows.now) }
{
    let mut depths = Items::new(alloc);
    for most in 0..MOST_DEPTH {
        depths = round(alloc, rows, depths.as_slice(), most)?;
    }
    Ok(depths)
}
