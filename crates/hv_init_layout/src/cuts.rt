// The positions at which the leaves of a body are parted.
ghost use Rattle.std.specs.Prelude.{◌≡◌, ◌↔◌, ◌<◌, nat_le, ℕ, true, Contains, IfOk};
ghost use Rattle.hv_init_cells.specs.Ranked.{rank, ranked};
ghost use Rattle.hv_init_layout.specs.Cuts as spec;

use crate::ends::sum;
use hv_flow_pass::Range;
use hv_items::Items;
use std::alloc::{AllocError as NoMemory, Global};
use std::marker::Model;

/// Positions in ascending order, each once.
#[derive(Drop)]
pub struct Cuts {
    list: Items<u32>,
}

impl Model for Cuts {
    ghost use Rattle.std.specs.Prelude.{ℕ, List};
    ghost use Rattle.hv_init_layout.specs.Cuts.{Ascends};

    ghost Value = { List ℕ };

    ghost view = { λ c. c.list };

    ghost invariant = { λ c. Ascends 0 c.list };
}

// The positions that are above 0 and all before them.
fn rising(alloc: Global, positions: &[u32]) -> Result<Items<u32>, NoMemory>
    ensures { IfOk result (λ list. list ≡ spec.rising 0 positions.now) }
{
    let mut list = Items::new(alloc);
    let mut low = 0u32;
    for position in positions {
        if low < *position {
            low = *position;
            list.push(low)?;
        }
    }
    Ok(list)
}

/// A length as a number of cells or locals.
pub fn number(count: usize) -> Result<u32, NoMemory>
    ensures { IfOk result (λ n. n ≡ count) }
{
    u32::try_from(count).ok().ok_or(NoMemory)
}

impl Cuts {
    /// A cut at each of the positions but 0, in time about linear in their number.
    pub fn of(alloc: Global, positions: Items<u32>) -> Result<Cuts, NoMemory>
        ensures { IfOk result (λ cuts. (n : ℕ) → (spec.stands cuts n ≡ true) ↔ ((0 < n) × Contains positions n)) }
    {
        let mut sorted = positions.into_vec();
        sorted.sort_unstable();
        Ok(Cuts {
            list: rising(alloc, sorted.as_slice())?,
        })
    }

    /// How many cuts there are up to a position.
    pub fn rank(&self, position: u32) -> Result<u32, NoMemory>
        ensures { IfOk result (λ n. n ≡ rank (spec.stands self.now) position) }
    {
        let count = self.list.as_slice().partition_point(
            |cut: &u32| -> bool
                ensures { result ≡ nat_le cut.now position }
            { *cut <= position },
        );
        number(count)
    }

    /// What a range becomes where the positions between two cuts are one.
    pub fn ranked(&self, range: Range) -> Result<Range, NoMemory>
        ensures { IfOk result (λ r. r ≡ ranked (spec.stands self.now) range) }
    {
        let end = sum(range.from, range.count)?;
        let from = self.rank(range.from)?;
        let count = self.rank(end)?.saturating_sub(from);
        Ok(Range { from, count })
    }
}
