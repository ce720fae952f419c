// The arguments of a call, in order.

ghost use Rattle.std.specs.Prelude.{◌≡◌, ℕ, map};
ghost use Rattle.hv_eval_state.specs.Gives.{Gives, from};
ghost use Rattle.hv_eval_state.specs.Opened.{last_first};
ghost use Rattle.hv_eval_env.specs.Nests.{Evals, Bodies};
ghost use Rattle.hv_eval_calls.specs.Passes.{passed_by};
ghost use Rattle.hv_eval_calls.specs.Arguments.{sofar_of, given_of};
ghost use Rattle.hv_eval_calls.specs.Calling.{one_in, args_in};

use crate::arguments::argument;
use crate::given::{Given, take};
use hv_eval_env::{Level, Parts};
use hv_eval_state::{Halt, Task};
use hv_items::at;
use hv_partial::Held;
use hv_sem_copying::Cause;
use hv_tree::{Arg, Conv, Expr, Param};

// An argument more.
#[tactic(auto, unfolding(crate::specs::Calling::one_in, hv_sem_copying::specs::Run::and_then, hv_sem_copying::specs::Run::counted_from))]
fn one_more<
    'a,
    E: Fn(Level<'a>, usize, &mut Task, &Expr) -> Result<Held, Halt>,
    B: Fn(Level<'a>, &mut Task, u32) -> Result<Option<Held>, Halt>,
>(
    parts: &Parts<'a, E, B>,
    task: &mut Task,
    given: Given,
    conv: Conv,
    arg: &Arg,
) -> Result<Given, Halt>
    requires { Evals parts.now.level (E.pre parts.now.eval) (E.post parts.now.eval) }
    ensures { (n : ℕ) → Gives sofar_of (from (one_in parts.now.level conv arg.now given.used (map passed_by given.passed) (last_first given.opens.items)) n task.old) result task.new }
{
    let argument = argument(parts, given.used, task, conv, arg)?;
    take(parts.level.alloc, task, given, argument)
}

/// The arguments in order. Those that lend take the references that follow.
pub fn all_given<
    'a,
    E: Fn(Level<'a>, usize, &mut Task, &Expr) -> Result<Held, Halt>,
    B: Fn(Level<'a>, &mut Task, u32) -> Result<Option<Held>, Halt>,
>(
    parts: &Parts<'a, E, B>,
    task: &mut Task,
    args: &[Arg],
    params: &[Param],
    given: Given,
) -> Result<Given, Halt>
    requires { Evals parts.now.level (E.pre parts.now.eval) (E.post parts.now.eval) }
    ensures { (n : ℕ) → Gives given_of (from (args_in parts.now.level args.now params.now given.used (map passed_by given.passed) (last_first given.opens.items)) n task.old) result task.new }
{
    let mut given = given;
    for (i, arg) in args.iter().enumerate() {
        let Some(param) = at(params, i) else {
            return Err(Halt::Stuck(Cause::Kinds));
        };
        match one_more(parts, task, given, param.conv, arg) {
            Ok(next) => given = next,
            Err(halt) => return Err(halt),
        }
    }
    if args.len() < params.len() {
        return Err(Halt::Stuck(Cause::Kinds));
    }
    Ok(given)
}
