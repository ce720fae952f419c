// Steps that are paid, and what is printed.

ghost use Rattle.std.specs.Prelude.{◌≡◌, ℕ};
ghost use Rattle.hv_value.specs.Sizes.{size};
ghost use Rattle.hv_sem_copying.specs.Run as run;
ghost use Rattle.hv_partial.specs.HeldTree.{held_tree};
ghost use Rattle.hv_eval_state.specs.Gives.{Gives, from, nothing};

use crate::task::{Halt, Task};
use hv_partial::Held;
use hv_tree::Place;

/// Pays a cost before its action, unless less is left.
#[tactic(auto, unfolding(hv_sem_copying::specs::Run::pay))]
pub fn pay(task: &mut Task, cost: u64, at: Place) -> Result<(), Halt>
    ensures { (n : ℕ) → Gives nothing (from (run.pay cost at) n task.old) result task.new }
{
    if cost > task.steps {
        return Err(Halt::Spent(at));
    }
    task.steps -= cost;
    Ok(())
}

/// Pays the size of a tree. No more of it is looked at than there are steps.
#[tactic(auto, unfolding(hv_sem_copying::specs::Run::pay))]
pub fn pay_size(task: &mut Task, held: &Held, at: Place) -> Result<(), Halt>
    ensures { (n : ℕ) → Gives nothing (from (run.pay (size (held_tree held.now)) at) n task.old) result task.new }
{
    match hv_partial::size(held, task.steps) {
        Some(cost) => {
            task.steps -= cost;
            Ok(())
        }
        None => Err(Halt::Spent(at)),
    }
}

/// Adds bytes to the output.
#[tactic(auto, unfolding(hv_sem_copying::specs::Run::say))]
pub fn say(task: &mut Task, bytes: &[u8]) -> Result<(), Halt>
    ensures { (n : ℕ) → Gives nothing (from (run.say bytes.now) n task.old) result task.new }
{
    for byte in bytes {
        task.output.push(*byte)?;
    }
    Ok(())
}
