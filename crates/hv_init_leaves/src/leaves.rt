ghost use Rattle.std.specs.Prelude.{◌≡◌, IfOk, List, length, map};
ghost use Rattle.hv_tree.specs.Core.{Core, core_tree};
ghost use Rattle.hv_decls.specs.Locals.{Local};
ghost use Rattle.hv_rules.specs.States.{fields_of};
ghost use Rattle.hv_scope.specs.Known.{local_by};
ghost use Rattle.hv_init_cells.specs.Plain.{ranges};
ghost use Rattle.hv_init_leaves.specs.Leaves.{AreSizesOf, AreLeavesOf, locals_in, range_by};

use crate::reached::{part_at, range_of, walked};
use crate::row::{Row, row_from};
use crate::sizes::Sizes;
use crate::table::numbers_of;
use hv_decls::StaticStep;
use hv_flow_pass::Range;
use hv_scope::{Declared, Known};
use std::alloc::{AllocError as NoMemory, Global};

/// Where the leaves of a body's locals stand. They are counted from 1 on.
#[derive(Drop)]
pub struct Leaves {
    row: Row,
}

impl Leaves {
    /// Counts by the sizes of the program's structs. More leaves than a `u32` counts are want of memory.
    #[tactic(auto, using(crate::proofs::Ranges::are_leaves))]
    pub fn of(
        alloc: Global,
        declared: &Declared<'_>,
        sizes: &Sizes,
        locals: &[Known<'_>],
    ) -> Result<Leaves, NoMemory>
        ensures { IfOk result (λ l. AreSizesOf (core_tree declared.now) sizes.now → AreLeavesOf (core_tree declared.now) (map local_by locals.now) l) }
    {
        let numbers = numbers_of(alloc, declared, locals)?;
        let row = row_from(alloc, sizes.sizes.as_slice(), 1, numbers.as_slice())?;
        Ok(Leaves { row })
    }

    /// How many locals there are.
    pub fn len(&self) -> usize
        ensures { result ≡ length (locals_in self.now) }
    {
        self.row.parts.len()
    }

    /// The leaves under the fields of a local, up to the first index. A local or field that there isn't has none.
    #[tactic(auto, using(crate::proofs::Ranges::range_is))]
    pub fn range(&self, sizes: &Sizes, root: u32, steps: &[StaticStep]) -> Result<Range, NoMemory>
        ensures mirror { IfOk result (λ r. r ≡ range_by sizes.now self.now root (fields_of steps.now)) }
        ensures leaves { IfOk result (λ r. (tree : Core) (locals : List Local) → AreSizesOf tree sizes.now → AreLeavesOf tree locals self.now → r ≡ ranges tree 1 locals root (fields_of steps.now)) }
    {
        let reached = walked(sizes, part_at(&self.row, root), steps)?;
        Ok(range_of(sizes, reached))
    }
}
