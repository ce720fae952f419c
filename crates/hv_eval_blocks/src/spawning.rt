// What a spawn costs, and where it is refused.

ghost use Rattle.std.specs.Prelude.{◌≡◌, ℕ};
ghost use Rattle.hv_sem_copying.specs.Calls as calls;
ghost use Rattle.hv_sem_copying.specs.Calls.{Child};
ghost use Rattle.hv_eval_state.specs.Gives.{Gives, from, itself, nothing};
ghost use Rattle.hv_eval_blocks.specs.Spawns.{spawned_in};

use hv_eval_env::Level;
use hv_eval_state::{Halt, Task, pay};
use hv_sem_copying::{Cause, TrapKind};
use hv_tree::Place;

// A budget is at least 1.
#[tactic(auto, using(crate::proofs::SpawnLemmas::by_budget))]
fn funded(task: &Task, word: Place, z: i64) -> Result<u64, Halt>
    ensures { (n : ℕ) → Gives itself (from (calls.budget_of word z) n task.now) result task.now }
{
    let Ok(budget) = u64::try_from(z) else {
        return Err(Halt::Trap(TrapKind::BadBudget, word));
    };
    if budget == 0 {
        return Err(Halt::Trap(TrapKind::BadBudget, word));
    }
    Ok(budget)
}

/// The budget and the depth are tested, and then 1 and the budget are paid. No child is begun here.
pub fn order<'a>(level: Level<'a>, task: &mut Task, word: Place, z: i64) -> Result<(), Halt>
    ensures { (n h : ℕ) (what : Child) → Gives nothing (from (spawned_in level.entry h word z what) n task.old) result task.new }
{
    let budget = funded(task, word, z)?;
    if level.left == 0 {
        return Err(Halt::Trap(TrapKind::TooDeep, word));
    }
    let Some(cost) = budget.checked_add(1) else {
        return Err(Halt::NoMemory);
    };
    pay(task, cost, word)?;
    Err(Halt::Stuck(Cause::Tasks))
}
