// The cells of a walk, and the lists of them that wait for the end of a part.
ghost use Rattle.std.specs.Prelude.{◌≡◌, slice_get, IfOk, OnOk};
ghost use Rattle.hv_flow_versions.specs.Levels as spec;

use crate::cell::Cell;
use crate::state::State;
use std::alloc::{AllocError as NoMemory, Global};
use std::marker::Model;

/// What the cells may be here, and the parts that are open. Contracts see the whole lists of cells
/// that are saved for the end of each part; a call costs what was changed inside the part that it
/// ends. Where a call finds no memory, it is left open how far it came.
#[derive(Drop)]
pub struct Versions {
    state: State,
}

impl Model for Versions {
    ghost use Rattle.hv_flow_versions.specs.Levels.{Levels};
    ghost use Rattle.hv_flow_versions.specs.States.{Sound, seen_levels};

    ghost Value = { Levels };

    ghost view = { λ v. seen_levels v.state };

    ghost invariant = { λ v. Sound v.state };
}

impl Versions {
    /// So many cells, each a no.
    pub fn new(alloc: Global, count: usize) -> Result<Versions, NoMemory>
        ensures { IfOk result (λ v. v ≡ spec.starting_level count) }
    {
        let state = State::new(alloc, count)?;
        Ok(Versions { state })
    }

    /// What a cell may be here.
    pub fn at(&self, index: usize) -> Option<Cell>
        ensures { result ≡ slice_get self.now.now index }
    {
        self.state.at(index)
    }

    fn set_one(&mut self, index: usize, value: bool) -> Result<(), NoMemory>
        ensures { OnOk result (self.new ≡ spec.set_level value index 1 self.old) }
    {
        self.state.list(index)?;
        self.state.set(index, value)
    }

    /// The cells of a range get a value.
    #[tactic(auto, using(crate::proofs::Outcomes::set_more, crate::proofs::Outcomes::set_none, crate::proofs::Outcomes::set_unreached))]
    pub fn set(&mut self, from: u32, count: u32, value: bool) -> Result<(), NoMemory>
        ensures { OnOk result (self.new ≡ spec.set_level value from count self.old) }
    {
        if self.state.len() == 0 {
            return Ok(());
        }
        let from = from as usize;
        for k in 0..count as usize {
            self.set_one(from + k, value)?;
        }
        Ok(())
    }

    /// Nothing goes on here.
    pub fn stop(&mut self)
        ensures { self.new ≡ spec.stopped_level self.old }
    {
        self.state.stop();
    }

    /// The one of two sides begins.
    pub fn split(&mut self) -> Result<(), NoMemory>
        ensures { OnOk result (self.new ≡ spec.split self.old) }
    {
        self.state.split()
    }

    /// A turn of a loop begins.
    pub fn enter(&mut self) -> Result<(), NoMemory>
        ensures { OnOk result (self.new ≡ spec.entered_level self.old) }
    {
        self.state.enter()
    }

    /// The one side ends, and the other begins.
    pub fn change_sides(&mut self)
        ensures { self.new ≡ spec.sides_changed self.old }
    {
        self.state.change_sides();
    }

    /// The same, where the one side may have begun in the other side of two that end together: it
    /// is one more side of those that are passed.
    pub fn change_sides_within(&mut self) -> Result<(), NoMemory>
        ensures { OnOk result (self.new ≡ spec.sides_changed_within self.old) }
    {
        self.state.change_sides_within()
    }

    /// The other side ends, and the walk goes on behind either.
    pub fn join(&mut self)
        ensures { self.new ≡ spec.joined_level self.old }
    {
        self.state.join();
    }

    /// The turn ends, and the walk goes on behind the loop.
    pub fn leave(&mut self)
        ensures { self.new ≡ spec.turned_level self.old }
    {
        self.state.leave();
    }
}
