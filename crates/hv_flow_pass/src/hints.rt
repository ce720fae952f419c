// Where the last that is asked of each cell may stand. A list is looked at there and nothing is
// built on it, so a hint may be out of date.
ghost use Rattle.std.specs.Prelude.{◌≡◌, replicate, IfOk};
ghost use Rattle.hv_flow_pass.specs.Hints as spec;

use hv_items::Items;
use std::alloc::{AllocError as NoMemory, Global};

/// An index for each value of a cell.
#[derive(Clone, Copy)]
pub struct Hint {
    pub no: usize,
    pub yes: usize,
}

impl Hint {
    /// Where this value of the cell may have been asked for last.
    pub fn of(self, value: bool) -> usize
        ensures { result ≡ spec.index_of value self }
    {
        if value { self.yes } else { self.no }
    }

    /// The other value keeps its index.
    pub fn with(self, value: bool, index: usize) -> Hint
        ensures { result ≡ spec.with_index value index self }
    {
        if value {
            Hint {
                no: self.no,
                yes: index,
            }
        } else {
            Hint {
                no: index,
                yes: self.yes,
            }
        }
    }
}

/// One for each of so many cells.
pub fn start(alloc: Global, count: usize) -> Result<Items<Hint>, NoMemory>
    ensures { IfOk result (λ all. all ≡ replicate count spec.no_hint) }
{
    let mut all = Items::new(alloc);
    for _k in 0..count {
        all.push(Hint { no: 0, yes: 0 })?;
    }
    Ok(all)
}

/// 0 where no such cell is, as where nothing was asked.
pub fn at(hints: &Items<Hint>, cell: usize, value: bool) -> usize
    ensures { result ≡ spec.hint_at hints.now cell value }
{
    match hints.get(cell) {
        Some(hint) => hint.of(value),
        None => 0,
    }
}

/// Where no such cell is, nothing changes.
pub fn put(hints: &mut Items<Hint>, cell: usize, value: bool, index: usize)
    ensures { hints.new ≡ spec.hint_put cell value index hints.old }
{
    if let Some(hint) = hints.get(cell) {
        let hint = hint.with(value, index);
        hints.set(cell, hint);
    }
}
