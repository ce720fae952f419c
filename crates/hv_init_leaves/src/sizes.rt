ghost use Rattle.std.specs.Prelude.{◌≡◌, IfOk, map};
ghost use Rattle.std.specs.Option.{option_copied};
ghost use Rattle.hv_tree.specs.Core.{core_tree};
ghost use Rattle.hv_init_leaves.specs.Leaves.{AreSizesOf};
ghost use Rattle.hv_init_leaves.specs.Rows as spec;

use crate::rounds::sizes_of;
use crate::row::{Row, row_from};
use crate::table::table_of;
use hv_items::Items;
use hv_scope::Declared;
use std::alloc::{AllocError as NoMemory, Global};

/// How many leaves the structs of a program have, and where those of their fields begin.
#[derive(Drop)]
pub struct Sizes {
    /// The leaves of each struct.
    pub(crate) sizes: Items<u32>,
    /// The fields of each struct.
    pub(crate) rows: Items<Row>,
}

fn rows_of(
    alloc: Global,
    sizes: &[u32],
    table: &[Items<Option<usize>>],
) -> Result<Items<Row>, NoMemory>
    ensures { IfOk result (λ rows. rows ≡ map (spec.row_from sizes.now 0) table.now) }
{
    let mut rows = Items::new(alloc);
    for numbers in table {
        rows.push(row_from(alloc, sizes, 0, numbers.as_slice())?)?;
    }
    Ok(rows)
}

/// The fields of the struct with this number.
pub(crate) fn row_by(sizes: &Sizes, number: Option<usize>) -> Option<&Row>
    ensures { option_copied result ≡ spec.row_by sizes.now number }
{
    match number {
        Some(number) => sizes.rows.get(number),
        None => None,
    }
}

impl Sizes {
    /// There is `NoMemory` too where a struct is deeper than is accepted, or has more leaves than a `u32` counts; the rules of types accept no such program.
    #[tactic(auto, using(crate::proofs::Settled::are_sizes))]
    pub fn of(alloc: Global, declared: &Declared<'_>) -> Result<Sizes, NoMemory>
        ensures { IfOk result (λ s. AreSizesOf (core_tree declared.now) s) }
    {
        let table = table_of(alloc, declared)?;
        let sizes = sizes_of(alloc, table.as_slice())?;
        let rows = rows_of(alloc, sizes.as_slice(), table.as_slice())?;
        Ok(Sizes { sizes, rows })
    }
}
