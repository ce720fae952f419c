// Operands in a list.

ghost use Rattle.std.specs.Prelude.{[], map};
ghost use Rattle.hv_partial.specs.HeldTree.{held_tree};
ghost use Rattle.hv_eval_state.specs.Gives.{Gives, from};
ghost use Rattle.hv_eval_env.specs.Nests.{Evals, Bodies};
ghost use Rattle.hv_eval_operands.specs.Operands.{trees, values_in, array_in};

use hv_eval_env::{Level, Parts};
use hv_eval_state::{Halt, Task};
use hv_items::Items;
use hv_partial::Held;
use hv_tree::Expr;

/// The values in order.
#[tactic(auto, unfolding(hv_sem_copying::specs::Run::pure))]
pub fn values<
    'a,
    E: Fn(Level<'a>, usize, &mut Task, &Expr) -> Result<Held, Halt>,
    B: Fn(Level<'a>, &mut Task, u32) -> Result<Option<Held>, Halt>,
>(parts: &Parts<'a, E, B>, used: usize, task: &mut Task, xs: &[Expr]) -> Result<Items<Held>, Halt>
    requires { Evals parts.now.level (E.pre parts.now.eval) (E.post parts.now.eval) }
    ensures { Gives trees (from (values_in parts.now.level [] xs.now) used task.old) result task.new }
{
    let mut values = Items::new(parts.level.alloc);
    for x in xs {
        let held = parts.eval(used, task, x)?;
        values.push(held)?;
    }
    Ok(values)
}

/// An array of its values.
#[tactic(auto, unfolding(hv_sem_copying::specs::Run::and_then, hv_sem_copying::specs::Run::pure))]
pub fn array<
    'a,
    E: Fn(Level<'a>, usize, &mut Task, &Expr) -> Result<Held, Halt>,
    B: Fn(Level<'a>, &mut Task, u32) -> Result<Option<Held>, Halt>,
>(parts: &Parts<'a, E, B>, used: usize, task: &mut Task, xs: &[Expr]) -> Result<Held, Halt>
    requires { Evals parts.now.level (E.pre parts.now.eval) (E.post parts.now.eval) }
    ensures { Gives held_tree (from (array_in parts.now.level xs.now) used task.old) result task.new }
{
    let values = values(parts, used, task, xs)?;
    Ok(Held::Array(values))
}
