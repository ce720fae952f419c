// The run of a body that is entered.

ghost use Rattle.std.specs.Prelude.{◌≡◌, ℕ, map};
ghost use Rattle.hv_decls.specs.Locals.{CoreBody};
ghost use Rattle.hv_eval_state.specs.Gives.{Gives, from};
ghost use Rattle.hv_eval_env.specs.Level.{flow_of};
ghost use Rattle.hv_eval_env.specs.Nests.{Bodies};
ghost use Rattle.hv_eval_calls.specs.Entered.{run_in, entered_in};
ghost use Rattle.hv_eval_calls.specs.Passes.{passed_by};

use crate::entry::{begin, finish};
use crate::passed::Passed;
use hv_eval_env::{Level, Parts};
use hv_eval_state::{Halt, Task, pay};
use hv_items::Items;
use hv_partial::Held;
use hv_sem_copying::TrapKind;
use hv_tree::{Expr, Place};

// A body on what it is entered with.
fn run_body<
    'a,
    E: Fn(Level<'a>, usize, &mut Task, &Expr) -> Result<Held, Halt>,
    B: Fn(Level<'a>, &mut Task, u32) -> Result<Option<Held>, Halt>,
>(
    parts: &Parts<'a, E, B>,
    task: &mut Task,
    f: u32,
    given: Items<Passed>,
) -> Result<Option<Held>, Halt>
    requires { Bodies parts.now.level (B.pre parts.now.body) (B.post parts.now.body) }
    ensures { (size n : ℕ) → Gives flow_of (from (run_in parts.now.level size f (map passed_by given)) n task.old) result task.new }
{
    let caller = begin(parts.level.alloc, task, given)?;
    match parts.body(task, f) {
        Ok(flow) => {
            finish(task, caller)?;
            Ok(flow)
        }
        Err(halt) => Err(halt),
    }
}

/// Enters a body: the depth is tested, and then 1 is paid, at the place of the call.
pub fn enter<
    'a,
    E: Fn(Level<'a>, usize, &mut Task, &Expr) -> Result<Held, Halt>,
    B: Fn(Level<'a>, &mut Task, u32) -> Result<Option<Held>, Halt>,
>(
    parts: &Parts<'a, E, B>,
    task: &mut Task,
    at: Place,
    f: u32,
    given: Items<Passed>,
) -> Result<Option<Held>, Halt>
    requires { Bodies parts.now.level (B.pre parts.now.body) (B.post parts.now.body) }
    ensures { (body : CoreBody) (n : ℕ) → Gives flow_of (from (entered_in parts.now.level at f body (map passed_by given)) n task.old) result task.new }
{
    if parts.level.left == 0 {
        return Err(Halt::Trap(TrapKind::TooDeep, at));
    }
    if let Err(halt) = pay(task, 1, at) {
        return Err(halt);
    }
    run_body(parts, task, f, given)
}
