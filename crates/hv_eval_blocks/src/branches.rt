// Branches: the tests in order, up to the first that holds.

ghost use Rattle.std.specs.Prelude.{◌≡◌, []};
ghost use Rattle.hv_eval_state.specs.Gives.{Gives, from};
ghost use Rattle.hv_eval_env.specs.Level.{flow_of};
ghost use Rattle.hv_eval_env.specs.Nests.{Evals, Blocks};
ghost use Rattle.hv_eval_blocks.specs.Statements.{choices_in};

use crate::stmts::Stmts;
use hv_eval_env::Level;
use hv_eval_state::{Halt, Task};
use hv_partial::Held;
use hv_tree::{Block, Branch, Expr};

impl<
    'a,
    E: Fn(Level<'a>, usize, &mut Task, &Expr) -> Result<Held, Halt>,
    B: Fn(Level<'a>, &mut Task, u32) -> Result<Option<Held>, Halt>,
    K: Fn(Level<'a>, usize, &mut Task, &Block) -> Result<Option<Held>, Halt>,
> Stmts<'a, E, B, K> {
    #[tactic(auto, using(crate::proofs::BranchLemmas::by_otherwise), unfolding(hv_sem_copying::specs::Run::pure))]
    fn otherwise(
        &self,
        used: usize,
        task: &mut Task,
        otherwise: &Option<Block>,
    ) -> Result<Option<Held>, Halt>
        requires { Blocks self.now.parts.level (K.pre self.now.block) (K.post self.now.block) }
        ensures { Gives flow_of (from (choices_in self.now.parts.level [] otherwise.now) used task.old) result task.new }
    {
        match otherwise {
            Some(block) => self.block(used, task, block),
            None => Ok(None),
        }
    }

    /// The block of the first test that holds, or the last one.
    #[tactic(auto, using(crate::proofs::BranchLemmas::by_branch))]
    pub fn choose(
        &self,
        used: usize,
        task: &mut Task,
        branches: &[Branch],
        otherwise: &Option<Block>,
    ) -> Result<Option<Held>, Halt>
        requires evals { Evals self.now.parts.level (E.pre self.now.parts.eval) (E.post self.now.parts.eval) }
        requires blocks { Blocks self.now.parts.level (K.pre self.now.block) (K.post self.now.block) }
        ensures { Gives flow_of (from (choices_in self.now.parts.level branches.now otherwise.now) used task.old) result task.new }
    {
        for branch in branches {
            if self.test(used, task, &branch.test)? {
                return self.block(used, task, &branch.body);
            }
        }
        self.otherwise(used, task, otherwise)
    }
}
