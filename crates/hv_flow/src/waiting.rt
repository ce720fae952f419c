// What is known of the flow that is read, and what waits for a part of it.
ghost use Rattle.std.specs.Prelude.{◌≡◌, ◌∷◌, [], OnOk, MatchOption};

use hv_items::Items;
use std::alloc::{AllocError as NoMemory, Global};
use std::marker::Model;

/// The nodes with which a part may begin and end, and whether it may be empty.
#[derive(Drop)]
pub struct Part {
    pub first: Items<u32>,
    pub last: Items<u32>,
    pub empty: bool,
}

/// An operator some of whose parts aren't there yet.
#[derive(Drop)]
pub enum Frame {
    /// A `Then` whose first part is being read.
    Before,
    /// A `Then` with its first part, whose second is being read.
    Behind(Part),
    /// An `Either` whose first part is being read.
    OneSide,
    /// An `Either` with its first part, whose second is being read.
    OtherSide(Part),
    /// A `Loop` whose part is being read.
    Turn,
}

/// The operators that wait, the innermost first.
#[derive(Drop)]
pub struct Waiting {
    frames: Vec<Frame>,
}

impl Model for Waiting {
    ghost use Rattle.std.specs.Prelude.{List, reverse};
    ghost use Rattle.hv_flow.specs.declared.waiting.Frame.{Frame};

    ghost Value = { List Frame };

    ghost view = { λ w. reverse w.frames.items };
}

impl Waiting {
    /// No operator waits, which takes no memory.
    pub fn new(alloc: Global) -> Waiting
        ensures { result ≡ [] }
    {
        Waiting {
            frames: Vec::new(alloc),
        }
    }

    /// One more waits, as the innermost.
    #[tactic(auto, using(hv_lemmas::proofs::Reversed::stacked))]
    pub fn push(&mut self, frame: Frame) -> Result<(), NoMemory>
        ensures { OnOk result (self.new ≡ frame ∷ self.old) }
    {
        self.frames.push(frame)?;
        Ok(())
    }

    /// The innermost waits no longer.
    #[tactic(auto, using(hv_lemmas::proofs::Reversed::stacked))]
    pub fn pop(&mut self) -> Option<Frame>
        ensures { MatchOption result ((self.old ≡ []) × (self.new ≡ [])) (λ frame. self.old ≡ frame ∷ self.new) }
    {
        self.frames.pop()
    }
}
