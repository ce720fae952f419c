ghost use Rattle.std.specs.Prelude.{◌≡◌, [], ◌∷◌, ◌++◌, drop, take, length, OnOk, OnErr};
ghost use Rattle.hv_flow_versions.specs.Histories as spec;

use crate::closing::Closing;
use crate::histories::Histories;
use std::alloc::{AllocError as NoMemory, Global};
use std::marker::Model;

/// The numbers of the cells that were changed, in turn.
#[derive(Drop)]
pub struct Trail {
    list: Vec<usize>,
}

impl Model for Trail {
    ghost use Rattle.std.specs.Prelude.{ℕ, List};

    ghost Value = { List ℕ };

    ghost view = { λ t. t.list.items };
}

impl Trail {
    /// No cell was changed, which takes no memory.
    pub fn new(alloc: Global) -> Trail
        ensures { result ≡ [] }
    {
        Trail {
            list: Vec::new(alloc),
        }
    }

    /// How many changes are noted; a part remembers it from its begin.
    pub fn len(&self) -> usize
        ensures { result ≡ length self.now }
    {
        self.list.len()
    }

    /// Lends the numbers, the earliest change first.
    pub fn as_slice(&self) -> &[usize]
        ensures { result.now ≡ self.now }
    {
        self.list.as_slice()
    }

    /// Notes a change of the cell with this number.
    pub fn push(&mut self, at: usize) -> Result<(), NoMemory>
        ensures ok { OnOk result (self.new ≡ self.old ++ at ∷ []) }
        ensures err { OnErr result (self.new ≡ self.old) }
    {
        self.list.push(at)?;
        Ok(())
    }

    /// A part ends that began as the trail was so long.
    pub fn end(&mut self, histories: &mut Histories, from: usize, depth: usize, closing: Closing)
        ensures histories { histories.new ≡ spec.closed_all depth closing (drop from self.old) histories.old }
        ensures kept { self.new ≡ take from self.old ++ spec.kept_all depth closing (drop from self.old) histories.old }
    {
        histories.end(&mut self.list, from, depth, closing);
    }
}
