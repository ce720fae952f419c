// What evaluates the parts of a part.
ghost use Rattle.std.specs.Prelude.{◌≡◌, ℕ};
ghost use Rattle.hv_partial.specs.HeldTree.{held_tree};
ghost use Rattle.hv_eval_state.specs.Gives.{Gives, from};
ghost use Rattle.hv_eval_env.specs.Level.{value_in, body_in, flow_of};
ghost use Rattle.hv_eval_env.specs.Nests.{Evals, Bodies};

use crate::level::Level;
use hv_eval_state::{Halt, Task};
use hv_partial::Held;
use hv_tree::Expr;

/// What evaluates the parts of a part: expressions, and bodies that are entered.
#[derive(Clone, Copy)]
pub struct Parts<'a, E, B> {
    pub level: Level<'a>,
    pub eval: E,
    pub body: B,
}

impl<
    'a,
    E: Fn(Level<'a>, usize, &mut Task, &Expr) -> Result<Held, Halt>,
    B: Fn(Level<'a>, &mut Task, u32) -> Result<Option<Held>, Halt>,
> Parts<'a, E, B> {
    /// Evaluates where so many references are in use.
    pub fn eval(&self, used: usize, task: &mut Task, x: &Expr) -> Result<Held, Halt>
        requires { Evals self.now.level (E.pre self.now.eval) (E.post self.now.eval) }
        ensures { Gives held_tree (from (value_in self.now.level x.now) used task.old) result task.new }
    {
        (self.eval)(self.level, used, task, x)
    }

    /// Runs a body one activation further in, where the task holds its locals. None: it ended without a Return.
    pub fn body(&self, task: &mut Task, f: u32) -> Result<Option<Held>, Halt>
        requires { Bodies self.now.level (B.pre self.now.body) (B.post self.now.body) }
        ensures { (n : ℕ) → Gives flow_of (from (body_in self.now.level f) n task.old) result task.new }
    {
        (self.body)(self.level, task, f)
    }
}
