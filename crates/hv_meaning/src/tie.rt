// The functions that evaluate, run blocks and run bodies, tied to each other.
ghost use Rattle.std.specs.Prelude.{◌≡◌, ℕ};
ghost use Rattle.hv_partial.specs.HeldTree.{held_tree};
ghost use Rattle.hv_eval_state.specs.Gives.{Gives, from};
ghost use Rattle.hv_tree.specs.Core.{core_option_ty};
ghost use Rattle.hv_sem_copying.specs.Calls as calls;
ghost use Rattle.hv_eval_env.specs.Level.{value_in, block_in, body_in, flow_of};

use crate::kinds::value;
use hv_eval_blocks::Stmts;
use hv_eval_env::{Level, Parts};
use hv_eval_state::{Halt, Task};
use hv_partial::Held;
use hv_sem_copying::Cause;
use hv_tree::{Block, Expr, Ty};

/// The end of a body with a result isn't reached.
#[tactic(auto, unfolding(hv_sem_copying::specs::Run::pure, hv_sem_copying::specs::Run::halt))]
pub fn ended(task: &Task, returned: &Option<Ty>, flow: Option<Held>) -> Result<Option<Held>, Halt>
    ensures { (n : ℕ) → Gives flow_of (from (calls.ended (core_option_ty returned.now) (flow_of flow)) n task.now) result task.now }
{
    match (returned, flow) {
        (Some(_), None) => Err(Halt::Stuck(Cause::Holes)),
        (_, flow) => Ok(flow),
    }
}

/// Evaluates parts at one nesting less; without one left it is want of memory. `used` references are in use.
#[cycle(levels)]
pub fn eval_to<'a>(level: Level<'a>, used: usize, task: &mut Task, x: &Expr) -> Result<Held, Halt>
    ensures { Gives held_tree (from (value_in level.entry x.now) used task.old) result task.new }
{
    if level.nesting == 0 {
        return Err(Halt::NoMemory);
    }
    let parts = Parts {
        level: Level {
            nesting: level.nesting - 1,
            ..level
        },
        eval: eval_to,
        body: body_at,
    };
    value(&parts, used, task, x)
}

/// The same for a block: `Some` where a `return` left it; that of `return` alone is a struct without fields.
#[cycle(levels)]
pub fn block_to<'a>(
    level: Level<'a>,
    used: usize,
    task: &mut Task,
    block: &Block,
) -> Result<Option<Held>, Halt>
    ensures { Gives flow_of (from (block_in level.entry block.now) used task.old) result task.new }
{
    if level.nesting == 0 {
        return Err(Halt::NoMemory);
    }
    let level = Level {
        nesting: level.nesting - 1,
        ..level
    };
    let stmts = Stmts {
        parts: Parts {
            level,
            eval: eval_to,
            body: body_at,
        },
        block: block_to,
    };
    stmts.layer(used, task, block)
}

/// A body that is entered.
#[cycle(levels)]
pub fn body_at<'a>(level: Level<'a>, task: &mut Task, f: u32) -> Result<Option<Held>, Halt>
    ensures { (n : ℕ) → Gives flow_of (from (body_in level.entry f) n task.old) result task.new }
{
    if level.left == 0 {
        return Err(Halt::Stuck(Cause::Tasks));
    }
    let Some(scoped) = level.program.body(f) else {
        return Err(Halt::Stuck(Cause::Kinds));
    };
    let level = Level {
        locals: &scoped.locals,
        left: level.left - 1,
        nesting: u64::MAX,
        ..level
    };
    let used = scoped.locals.as_slice().len();
    match block_to(level, used, task, scoped.body.block) {
        Ok(flow) => ended(task, scoped.body.returned, flow),
        Err(halt) => Err(halt),
    }
}
