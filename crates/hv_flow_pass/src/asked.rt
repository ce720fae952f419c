// What is asked of the cells as the innermost turn of a loop began.
ghost use Rattle.std.specs.Prelude.{◌≡◌, OnOk};
ghost use Rattle.hv_flow_pass.specs.Cells as spec;

use crate::act::Range;
use crate::first::{earlier, is_before, when};
use crate::hints::Hint;
use crate::{cells, hints};
use hv_flow_versions::Versions;
use hv_items::Items;
use hv_tree::Refusal;
use std::alloc::AllocError as NoMemory;

/// The refusal is due where the cell had the value as the turn began.
#[derive(Clone, Copy)]
pub struct Asked {
    pub cell: usize,
    pub value: bool,
    pub refusal: Refusal,
}

impl Asked {
    fn is_beside(self, other: Asked) -> bool
        ensures { result ≡ spec.is_beside self other }
    {
        self.cell == other.cell && self.value == other.value
    }

    /// Whether the other is superfluous beside this one: of the same cell and value, and not before.
    fn suffices(self, other: Asked) -> bool
        ensures { result ≡ spec.suffices self other }
    {
        self.is_beside(other) && !is_before(other.refusal, self.refusal)
    }
}

/// One of the list of a turn.
#[derive(Clone, Copy)]
pub struct Entry {
    pub asked: Asked,
    /// The hint for its cell and value as the turn began.
    pub around: usize,
}

/// What is asked in one turn, with the hints.
#[derive(Drop)]
pub struct Asks {
    pub list: Items<Entry>,
    pub hints: Items<Hint>,
}

impl Asks {
    fn has(&self, one: Asked) -> bool
        ensures { result ≡ spec.is_asked self.now one }
    {
        match self.list.get(hints::at(&self.hints, one.cell, one.value)) {
            Some(old) => old.asked.suffices(one),
            None => false,
        }
    }

    fn around(&self, one: Asked) -> usize
        ensures { result ≡ spec.hint_around self.now one }
    {
        let hint = hints::at(&self.hints, one.cell, one.value);
        match self.list.get(hint) {
            Some(old) if old.asked.is_beside(one) => old.around,
            _ => hint,
        }
    }

    /// Asks, where no hint shows that it is superfluous.
    fn add(&mut self, one: Asked) -> Result<(), NoMemory>
        ensures { OnOk result (self.new ≡ spec.added one self.old) }
    {
        if self.has(one) {
            return Ok(());
        }
        let around = self.around(one);
        let index = self.list.len();
        self.list.push(Entry { asked: one, around })?;
        hints::put(&mut self.hints, one.cell, one.value, index);
        Ok(())
    }
}

/// The refusal is asked of each of the cells that may be as it was.
#[tactic(auto, using(crate::proofs::AskedLemmas::asked_more, crate::proofs::AskedLemmas::asked_same))]
pub fn ask(
    asked: &mut Asks,
    versions: &Versions,
    range: Range,
    value: bool,
    refusal: Refusal,
) -> Result<(), NoMemory>
    ensures { OnOk result (asked.new ≡ spec.asked_in value refusal versions.now.now range.from range.count asked.old) }
{
    let from = range.from as usize;
    for k in 0..range.count as usize {
        if cells::is_kept(versions, from + k) {
            asked.add(Asked {
                cell: from + k,
                value,
                refusal,
            })?;
        }
    }
    Ok(())
}

/// The first of what is found and of what is refused where the cells are so as the turn begins.
pub fn find(versions: &Versions, entries: &[Entry], found: Option<Refusal>) -> Option<Refusal>
    ensures { result ≡ spec.found_in versions.now.now entries.now found }
{
    let mut found = found;
    for entry in entries {
        let one = entry.asked;
        let may = cells::may_be(versions, one.cell, one.value);
        found = earlier(found, when(may, Some(one.refusal)));
    }
    found
}

/// What is asked further out too, where the cells are so as the turn begins. The hints there hold
/// again.
pub fn pass_on(outer: &mut Asks, versions: &Versions, entries: &[Entry]) -> Result<(), NoMemory>
    ensures { OnOk result (outer.new ≡ spec.passed_on versions.now.now entries.now outer.old) }
{
    for entry in entries {
        let one = entry.asked;
        hints::put(&mut outer.hints, one.cell, one.value, entry.around);
        if cells::is_kept(versions, one.cell) {
            outer.add(one)?;
        }
    }
    Ok(())
}
