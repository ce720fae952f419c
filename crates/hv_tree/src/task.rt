ghost use Rattle.std.specs.Prelude.{◌≡◌, [], ◌∷◌, ◌++◌, ◌↔◌, IfOk, IsTrue, List, ℕ, map};
ghost use Rattle.std.specs.List.{join_with_byte};
ghost use Rattle.std.specs.Fmt.{decimal};

use std::alloc::{AllocError as NoMemory, Global};
use std::marker::Model;

/// A task's place in the tree of tasks, which contracts see as a list of numbers: the root is
/// `0`, and the m-th spawn of a task, from 0, adds `m`.
#[derive(Debug, Drop)]
pub struct TaskId {
    path: Vec<u32>,
}

impl Model for TaskId {
    ghost use Rattle.std.specs.Prelude.{List, ℕ};

    ghost Value = { List ℕ };

    ghost view = { λ t. t.path.items };
}

impl TaskId {
    /// The task that runs `main`.
    pub fn root(alloc: Global) -> Result<TaskId, NoMemory>
        ensures { IfOk result (λ id. id ≡ 0 ∷ []) }
    {
        let mut path = Vec::new(alloc);
        path.push(0)?;
        Ok(TaskId { path })
    }

    /// The task's spawn with the number `m`.
    pub fn child(&self, alloc: Global, m: u32) -> Result<TaskId, NoMemory>
        ensures { IfOk result (λ id. id ≡ self.now ++ m ∷ []) }
    {
        let mut path = Vec::from_slice(alloc, self.path.as_slice())?;
        path.push(m)?;
        Ok(TaskId { path })
    }

    /// The same path in memory of its own.
    pub fn copy(&self, alloc: Global) -> Result<TaskId, NoMemory>
        ensures { IfOk result (λ id. id ≡ self.now) }
    {
        let path = Vec::from_slice(alloc, self.path.as_slice())?;
        Ok(TaskId { path })
    }

    /// Whether both name one task of a run.
    pub fn same(&self, other: &TaskId) -> bool
        ensures { IsTrue result ↔ (self.now ≡ other.now) }
    {
        self.path.as_slice() == other.path.as_slice()
    }

    #[tactic(auto, using(crate::proofs::Dotted::first_number, crate::proofs::Dotted::further_number))]
    /// The numbers in decimal with dots between them, as `0.2.1`.
    pub fn text(&self, alloc: Global) -> Result<Vec<u8>, NoMemory>
        ensures { IfOk result (λ text. text.items ≡ join_with_byte 46 (map decimal self.now)) }
    {
        let mut text = Vec::new(alloc);
        for (at, number) in self.path.iter().enumerate() {
            if at > 0 {
                text.push(b'.')?;
            }
            let digits = number.to_string(alloc)?;
            text.extend_from_slice(digits.as_bytes())?;
        }
        Ok(text)
    }
}

/// What stands for a task.
pub trait Named {
    /// The task's id.
    ghost id: { Self → List ℕ };
}

impl Named for TaskId {
    ghost id = { λ id. id };
}
