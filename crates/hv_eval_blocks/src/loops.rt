// Loops: a turn, and as many turns as there are steps.

ghost use Rattle.std.specs.Prelude.{◌≡◌};
ghost use Rattle.hv_sem_copying.specs.Blocks as blocks;
ghost use Rattle.hv_eval_state.specs.Gives.{Gives, from, itself};
ghost use Rattle.hv_eval_env.specs.Level.{value_in, block_in, flow_of};
ghost use Rattle.hv_eval_env.specs.Nests.{Evals, Blocks};
ghost use Rattle.hv_eval_blocks.specs.Runs.{tested, turn};
ghost use Rattle.hv_eval_blocks.specs.Statements.{turn_of};

use crate::stmts::Stmts;
use crate::ways::Turn;
use hv_eval_env::Level;
use hv_eval_state::{Halt, Task, pay, truth};
use hv_partial::Held;
use hv_tree::{Block, Expr, Place};

impl<
    'a,
    E: Fn(Level<'a>, usize, &mut Task, &Expr) -> Result<Held, Halt>,
    B: Fn(Level<'a>, &mut Task, u32) -> Result<Option<Held>, Halt>,
    K: Fn(Level<'a>, usize, &mut Task, &Block) -> Result<Option<Held>, Halt>,
> Stmts<'a, E, B, K> {
    /// Whether a test holds.
    #[tactic(auto, using(crate::proofs::Sequence::in_order), unfolding(crate::specs::Runs::tested))]
    pub fn test(&self, used: usize, task: &mut Task, test: &Expr) -> Result<bool, Halt>
        requires { Evals self.now.parts.level (E.pre self.now.parts.eval) (E.post self.now.parts.eval) }
        ensures { Gives itself (from (tested (value_in self.now.parts.level test.now)) used task.old) result task.new }
    {
        let held = self.parts.eval(used, task, test)?;
        truth(task, &held)
    }

    // One turn: how it ends the loop, if it does.
    #[tactic(auto, using(crate::proofs::Sequence::in_order, crate::proofs::TurnLemmas::by_turn), unfolding(crate::specs::Runs::turn))]
    fn turn(
        &self,
        used: usize,
        task: &mut Task,
        at: Place,
        test: &Expr,
        body: &Block,
    ) -> Result<Turn, Halt>
        requires evals { Evals self.now.parts.level (E.pre self.now.parts.eval) (E.post self.now.parts.eval) }
        requires blocks { Blocks self.now.parts.level (K.pre self.now.block) (K.post self.now.block) }
        ensures { Gives turn_of (from (turn at (value_in self.now.parts.level test.now) (block_in self.now.parts.level body.now)) used task.old) result task.new }
    {
        pay(task, 1, at)?;
        if !self.test(used, task, test)? {
            return Ok(Turn::Ends(None));
        }
        match self.block(used, task, body)? {
            Some(held) => Ok(Turn::Ends(Some(held))),
            None => Ok(Turn::Again),
        }
    }

    /// Turns up to a test that fails or a Return.
    #[tactic(auto, using(crate::proofs::TurnLemmas::by_turns), unfolding(hv_sem_copying::specs::Blocks::repeated))]
    pub fn repeat(
        &self,
        used: usize,
        task: &mut Task,
        at: Place,
        test: &Expr,
        body: &Block,
    ) -> Result<Option<Held>, Halt>
        requires evals { Evals self.now.parts.level (E.pre self.now.parts.eval) (E.post self.now.parts.eval) }
        requires blocks { Blocks self.now.parts.level (K.pre self.now.block) (K.post self.now.block) }
        ensures { Gives flow_of (from (blocks.repeated at (value_in self.now.parts.level test.now) (block_in self.now.parts.level body.now)) used task.old) result task.new }
    {
        let most = task.steps;
        for made in 0..=most {
            match self.turn(used, task, at, test, body)? {
                Turn::Again => {}
                Turn::Ends(flow) => return Ok(flow),
            }
        }
        Err(Halt::Spent(at))
    }
}
