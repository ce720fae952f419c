// What the fields of a path lead to.
ghost use Rattle.std.specs.Prelude.{◌≡◌, IfOk};
ghost use Rattle.hv_rules.specs.States.{fields_of};
ghost use Rattle.hv_init_leaves.specs.Reached as spec;

use crate::rounds::add;
use crate::row::{Part, Row, size_at};
use crate::sizes::{Sizes, row_by};
use hv_decls::StaticStep;
use hv_flow_pass::Range;
use std::alloc::AllocError as NoMemory;

/// What the fields of a path lead to.
#[derive(Clone, Copy)]
pub enum Reached {
    /// A local, or a part of one.
    Part(Part),
    /// There are no such fields; so many leaves come before.
    Nothing(u32),
}

/// The part with this number.
pub(crate) fn part_at(row: &Row, number: u32) -> Reached
    ensures { result ≡ spec.part_at row.now number }
{
    match row.parts.get(number as usize) {
        Some(part) => Reached::Part(*part),
        None => Reached::Nothing(row.end),
    }
}

fn moved(first: u32, reached: Reached) -> Result<Reached, NoMemory>
    ensures { IfOk result (λ r. r ≡ spec.moved first reached) }
{
    match reached {
        Reached::Part(part) => Ok(Reached::Part(Part {
            begin: add(first, part.begin)?,
            number: part.number,
        })),
        Reached::Nothing(before) => Ok(Reached::Nothing(add(first, before)?)),
    }
}

fn field_of(sizes: &Sizes, part: Part, field: u32) -> Result<Reached, NoMemory>
    ensures { IfOk result (λ r. r ≡ spec.field_in (spec.row_of sizes.now part) part.begin field) }
{
    match row_by(sizes, part.number) {
        Some(row) => moved(part.begin, part_at(row, field)),
        None => Ok(Reached::Nothing(part.begin)),
    }
}

fn after(sizes: &Sizes, reached: Reached, field: u32) -> Result<Reached, NoMemory>
    ensures { IfOk result (λ r. r ≡ spec.after sizes.now reached field) }
{
    match reached {
        Reached::Part(part) => field_of(sizes, part, field),
        Reached::Nothing(before) => Ok(Reached::Nothing(before)),
    }
}

/// What the steps lead to before the first index.
pub(crate) fn walked(
    sizes: &Sizes,
    from: Reached,
    steps: &[StaticStep],
) -> Result<Reached, NoMemory>
    ensures { IfOk result (λ r. r ≡ spec.walked sizes.now from (fields_of steps.now)) }
{
    let mut reached = from;
    for step in steps {
        match step {
            StaticStep::Field(field) => {
                reached = after(sizes, reached, *field)?;
            }
            StaticStep::Literal(_) => return Ok(reached),
            StaticStep::Any => return Ok(reached),
        }
    }
    Ok(reached)
}

/// Its leaves.
pub(crate) fn range_of(sizes: &Sizes, reached: Reached) -> Range
    ensures { result ≡ spec.range_of sizes.now reached }
{
    match reached {
        Reached::Part(part) => Range {
            from: part.begin,
            count: size_at(sizes.sizes.as_slice(), part.number),
        },
        Reached::Nothing(before) => Range {
            from: before,
            count: 0,
        },
    }
}
