// Arrays of so many copies.

ghost use Rattle.std.specs.Prelude.{◌≡◌, ◌≤◌, ◌<◌, ℕ, MatchOption};
ghost use Rattle.hv_value.specs.Sizes as sizes;
ghost use Rattle.hv_sem_copying.specs.Run as run;
ghost use Rattle.hv_sem_copying.specs.Operations as operations;
ghost use Rattle.hv_partial.specs.HeldTree.{held_tree};
ghost use Rattle.hv_eval_state.specs.Gives.{Gives, from, nothing};
ghost use Rattle.hv_eval_env.specs.Nests.{Evals, Bodies};
ghost use Rattle.hv_eval_operands.specs.Operands.{filled_in};

use hv_eval_env::{Level, Parts};
use hv_eval_state::{Halt, Task, number};
use hv_partial::{Held, Length, length_to_fill, size};
use hv_sem_copying::TrapKind;
use hv_tree::{Expr, Place};
use std::alloc::Global;

// What so many copies cost, unless that is above the limit.
fn fill_cost(n: u32, held: &Held, limit: u64) -> Option<u64>
    ensures { MatchOption result (limit < sizes.fill_cost n (held_tree held.now)) (λ cost. (cost ≡ sizes.fill_cost n (held_tree held.now)) × (cost ≤ limit)) }
{
    if limit == 0 {
        return None;
    }
    if n == 0 {
        return Some(1);
    }
    let size = size(held, limit)?;
    let copies = u64::from(n).checked_mul(size)?;
    if copies < limit {
        Some(copies + 1)
    } else {
        None
    }
}

#[tactic(auto, unfolding(hv_sem_copying::specs::Run::pay))]
fn pay_fill(task: &mut Task, n: u32, held: &Held, at: Place) -> Result<(), Halt>
    ensures { (k : ℕ) → Gives nothing (from (run.pay (sizes.fill_cost n (held_tree held.now)) at) k task.old) result task.new }
{
    match fill_cost(n, held, task.steps) {
        Some(cost) => {
            task.steps -= cost;
            Ok(())
        }
        None => Err(Halt::Spent(at)),
    }
}

// So many copies, which are paid once the length has been tested.
#[tactic(auto, using(crate::proofs::FillLemmas::fills), unfolding(hv_sem_copying::specs::Run::and_then, hv_sem_copying::specs::Run::pure))]
fn fill(alloc: Global, task: &mut Task, z: i64, held: &Held, at: Place) -> Result<Held, Halt>
    ensures { (n : ℕ) → Gives held_tree (from (operations.filled_with at (held_tree held.now) z) n task.old) result task.new }
{
    match length_to_fill(z) {
        Length::Right(n) => {
            pay_fill(task, n, held, at)?;
            Ok(hv_partial::filled(alloc, n, held)?)
        }
        Length::Bad => Err(Halt::Trap(TrapKind::BadLength, at)),
        Length::TooLong => Err(Halt::Trap(TrapKind::TooLong, at)),
    }
}

/// An array of so many copies of a value, which is evaluated once.
#[tactic(auto, unfolding(hv_sem_copying::specs::Run::and_then))]
pub fn filled<
    'a,
    E: Fn(Level<'a>, usize, &mut Task, &Expr) -> Result<Held, Halt>,
    B: Fn(Level<'a>, &mut Task, u32) -> Result<Option<Held>, Halt>,
>(
    parts: &Parts<'a, E, B>,
    used: usize,
    task: &mut Task,
    at: Place,
    length: &Expr,
    value: &Expr,
) -> Result<Held, Halt>
    requires { Evals parts.now.level (E.pre parts.now.eval) (E.post parts.now.eval) }
    ensures { Gives held_tree (from (filled_in parts.now.level at length.now value.now) used task.old) result task.new }
{
    let length = parts.eval(used, task, length)?;
    let value = parts.eval(used, task, value)?;
    let n = number(task, &length)?;
    fill(parts.level.alloc, task, n, &value, at)
}
