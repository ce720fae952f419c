// The operators that wait for a part.
ghost use Rattle.std.specs.Prelude.{◌≡◌, ◌∷◌, [], OnOk, MatchOption};

use crate::known::Frame;
use std::alloc::{AllocError as NoMemory, Global};
use std::marker::Model;

/// The operators that wait, the innermost first.
#[derive(Drop)]
pub struct Waiting {
    frames: Vec<Frame>,
}

impl Model for Waiting {
    ghost use Rattle.std.specs.Prelude.{List, reverse};
    ghost use Rattle.hv_flow_pass.specs.declared.known.Frame.{Frame};

    ghost Value = { List Frame };

    ghost view = { λ w. reverse w.frames.items };
}

impl Waiting {
    /// No operator waits, which takes no memory.
    pub fn new(alloc: Global) -> Waiting
        ensures { result ≡ [] }
    {
        Waiting {
            frames: Vec::new(alloc),
        }
    }

    /// One more waits, as the innermost.
    #[tactic(auto, using(hv_lemmas::proofs::Reversed::stacked))]
    pub fn push(&mut self, frame: Frame) -> Result<(), NoMemory>
        ensures { OnOk result (self.new ≡ frame ∷ self.old) }
    {
        self.frames.push(frame)?;
        Ok(())
    }

    /// The innermost waits no longer.
    #[tactic(auto, using(hv_lemmas::proofs::Reversed::stacked))]
    pub fn pop(&mut self) -> Option<Frame>
        ensures { MatchOption result ((self.old ≡ []) × (self.new ≡ [])) (λ frame. self.old ≡ frame ∷ self.new) }
    {
        self.frames.pop()
    }
}
