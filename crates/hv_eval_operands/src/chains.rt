// Operators over operands that are evaluated in order.

ghost use Rattle.hv_tree.specs.Core.{core_of, core_links};
ghost use Rattle.hv_sem_copying.specs.Operations as operations;
ghost use Rattle.hv_partial.specs.HeldTree.{held_tree};
ghost use Rattle.hv_eval_state.specs.Gives.{Gives, from};
ghost use Rattle.hv_eval_env.specs.Nests.{Evals, Bodies};
ghost use Rattle.hv_eval_operands.specs.Operands.{chained_in, chain_in, operated, prefix_in};

use hv_eval_env::{Level, Parts};
use hv_eval_state::{Halt, Task, binary, decides, unary};
use hv_partial::Held;
use hv_tree::{Expr, Operator, Place};

// An operator applied to what stands before it and to its operand.
#[tactic(auto, unfolding(hv_sem_copying::specs::Run::and_then))]
fn operate<
    'a,
    E: Fn(Level<'a>, usize, &mut Task, &Expr) -> Result<Held, Halt>,
    B: Fn(Level<'a>, &mut Task, u32) -> Result<Option<Held>, Halt>,
>(
    parts: &Parts<'a, E, B>,
    used: usize,
    task: &mut Task,
    left: &Held,
    link: &(Operator, Place, Expr),
) -> Result<Held, Halt>
    requires { Evals parts.now.level (E.pre parts.now.eval) (E.post parts.now.eval) }
    ensures { Gives held_tree (from (operated parts.now.level (held_tree left.now) link.now) used task.old) result task.new }
{
    let right = parts.eval(used, task, &link.2)?;
    binary(task, link.0, link.1, left, &right)
}

// The operators behind an operand, until `&&` or `||` stops.
#[tactic(auto, unfolding(hv_sem_copying::specs::Run::pure))]
fn chained<
    'a,
    E: Fn(Level<'a>, usize, &mut Task, &Expr) -> Result<Held, Halt>,
    B: Fn(Level<'a>, &mut Task, u32) -> Result<Option<Held>, Halt>,
>(
    parts: &Parts<'a, E, B>,
    used: usize,
    task: &mut Task,
    first: Held,
    links: &[(Operator, Place, Expr)],
) -> Result<Held, Halt>
    requires { Evals parts.now.level (E.pre parts.now.eval) (E.post parts.now.eval) }
    ensures { Gives held_tree (from (chained_in parts.now.level links.now (held_tree first)) used task.old) result task.new }
{
    let mut held = first;
    for link in links {
        if decides(link.0, &held) {
            return Ok(held);
        }
        held = operate(parts, used, task, &held, link)?;
    }
    Ok(held)
}

/// An operand and the operators behind it, each applied before the next operand is evaluated.
#[tactic(auto, unfolding(hv_sem_copying::specs::Run::and_then))]
pub fn chain<
    'a,
    E: Fn(Level<'a>, usize, &mut Task, &Expr) -> Result<Held, Halt>,
    B: Fn(Level<'a>, &mut Task, u32) -> Result<Option<Held>, Halt>,
>(
    parts: &Parts<'a, E, B>,
    used: usize,
    task: &mut Task,
    first: &Expr,
    links: &[(Operator, Place, Expr)],
) -> Result<Held, Halt>
    requires { Evals parts.now.level (E.pre parts.now.eval) (E.post parts.now.eval) }
    ensures { Gives held_tree (from (chain_in parts.now.level first.now links.now) used task.old) result task.new }
{
    let held = parts.eval(used, task, first)?;
    chained(parts, used, task, held, links)
}

/// An operator with one operand.
#[tactic(auto, unfolding(hv_sem_copying::specs::Run::and_then))]
pub fn prefix<
    'a,
    E: Fn(Level<'a>, usize, &mut Task, &Expr) -> Result<Held, Halt>,
    B: Fn(Level<'a>, &mut Task, u32) -> Result<Option<Held>, Halt>,
>(
    parts: &Parts<'a, E, B>,
    used: usize,
    task: &mut Task,
    at: Place,
    operator: Operator,
    operand: &Expr,
) -> Result<Held, Halt>
    requires { Evals parts.now.level (E.pre parts.now.eval) (E.post parts.now.eval) }
    ensures { Gives held_tree (from (prefix_in parts.now.level at operator operand.now) used task.old) result task.new }
{
    let held = parts.eval(used, task, operand)?;
    unary(task, operator, at, &held)
}
