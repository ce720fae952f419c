// Statements and blocks.

ghost use Rattle.std.specs.Prelude.{◌≡◌, [], ℕ};
ghost use Rattle.hv_sem_flat.specs.Accesses as accesses;
ghost use Rattle.hv_eval_state.specs.Gives.{Gives, from};
ghost use Rattle.hv_eval_state.specs.Opened.{last_first};
ghost use Rattle.hv_eval_env.specs.Level.{block_in, flow_of};
ghost use Rattle.hv_eval_env.specs.Nests.{Evals, Bodies, Blocks};
ghost use Rattle.hv_eval_blocks.specs.Statements.{went_of, ended_of, paid_in, statements_in};

use crate::ways::{Ended, Went};
use hv_eval_env::{Level, Parts};
use hv_eval_state::{Halt, Task, close_all, pay};
use hv_partial::Held;
use hv_tree::{Block, Expr, Stmt};
use std::alloc::AllocError as NoMemory;

/// What runs statements: what evaluates their parts, and what runs a block.
#[derive(Clone, Copy)]
pub struct Stmts<'a, E, B, K> {
    pub parts: Parts<'a, E, B>,
    pub block: K,
}

// The accesses close, the last one opened first.
#[tactic(auto, unfolding(hv_sem_copying::specs::Run::and_then, hv_sem_copying::specs::Run::pure))]
fn shut(task: &mut Task, ended: Ended) -> Result<Option<Held>, Halt>
    ensures { (n : ℕ) → Gives flow_of (from (accesses.shut (last_first ended.opened.items) (flow_of ended.flow)) n task.old) result task.new }
{
    close_all(task, ended.opened)?;
    Ok(ended.flow)
}

impl<
    'a,
    E: Fn(Level<'a>, usize, &mut Task, &Expr) -> Result<Held, Halt>,
    B: Fn(Level<'a>, &mut Task, u32) -> Result<Option<Held>, Halt>,
    K: Fn(Level<'a>, usize, &mut Task, &Block) -> Result<Option<Held>, Halt>,
> Stmts<'a, E, B, K> {
    /// A block inside.
    pub fn block(&self, used: usize, task: &mut Task, block: &Block) -> Result<Option<Held>, Halt>
        requires { Blocks self.now.parts.level (K.pre self.now.block) (K.post self.now.block) }
        ensures { Gives flow_of (from (block_in self.now.parts.level block.now) used task.old) result task.new }
    {
        (self.block)(self.parts.level, used, task, block)
    }

    // A statement with its cost.
    #[tactic(auto, using(crate::proofs::Sequence::in_order), unfolding(crate::specs::Statements::paid_in))]
    fn paid(&self, used: usize, task: &mut Task, stmt: &Stmt) -> Result<Went, Halt>
        requires evals { Evals self.now.parts.level (E.pre self.now.parts.eval) (E.post self.now.parts.eval) }
        requires bodies { Bodies self.now.parts.level (B.pre self.now.parts.body) (B.post self.now.parts.body) }
        requires blocks { Blocks self.now.parts.level (K.pre self.now.block) (K.post self.now.block) }
        ensures { Gives went_of (from (paid_in self.now.parts.level stmt.now) used task.old) result task.new }
    {
        pay(task, 1, stmt.place)?;
        self.statement(used, task, stmt)
    }

    // Statements up to a Return.
    #[tactic(auto, using(crate::proofs::BlockLemmas::by_statements))]
    fn statements(&self, used: usize, task: &mut Task, stmts: &[Stmt]) -> Result<Ended, Halt>
        requires evals { Evals self.now.parts.level (E.pre self.now.parts.eval) (E.post self.now.parts.eval) }
        requires bodies { Bodies self.now.parts.level (B.pre self.now.parts.body) (B.post self.now.parts.body) }
        requires blocks { Blocks self.now.parts.level (K.pre self.now.block) (K.post self.now.block) }
        ensures { Gives ended_of (from (statements_in self.now.parts.level stmts.now []) used task.old) result task.new }
    {
        let mut opened = Vec::new(self.parts.level.alloc);
        for stmt in stmts {
            match self.paid(used, task, stmt)? {
                Went::Leaves(held) => {
                    return Ok(Ended {
                        flow: Some(held),
                        opened,
                    });
                }
                Went::Goes => {}
                Went::Opens(access) => opened.push(access).map_err(NoMemory::from)?,
            }
        }
        Ok(Ended { flow: None, opened })
    }

    /// A block: its accesses close at its end, or where a Return leaves it, the last one opened first.
    pub fn layer(&self, used: usize, task: &mut Task, block: &Block) -> Result<Option<Held>, Halt>
        requires evals { Evals self.now.parts.level (E.pre self.now.parts.eval) (E.post self.now.parts.eval) }
        requires bodies { Bodies self.now.parts.level (B.pre self.now.parts.body) (B.post self.now.parts.body) }
        requires blocks { Blocks self.now.parts.level (K.pre self.now.block) (K.post self.now.block) }
        ensures { Gives flow_of (from (block_in self.now.parts.level block.now) used task.old) result task.new }
    {
        let ended = self.statements(used, task, block.stmts.as_slice())?;
        shut(task, ended)
    }
}
