// Calls: the callee, then the arguments, then the body.

ghost use Rattle.std.specs.Prelude.{◌≡◌, ℕ, [], map};
ghost use Rattle.hv_decls.specs.Locals.{CoreBody};
ghost use Rattle.hv_sem_copying.specs.Calls as calls;
ghost use Rattle.hv_partial.specs.HeldTree.{held_tree, held_trees};
ghost use Rattle.hv_eval_state.specs.Gives.{Gives, from};
ghost use Rattle.hv_eval_state.specs.Opened.{last_first};
ghost use Rattle.hv_eval_env.specs.Level.{flow_of};
ghost use Rattle.hv_eval_env.specs.Callees.{callee_of};
ghost use Rattle.hv_eval_env.specs.Nests.{Evals, Bodies};
ghost use Rattle.hv_eval_calls.specs.Passes.{passed_by};
ghost use Rattle.hv_eval_calls.specs.Calling.{callee_in, parts_in, trees_of, constructed_in, bodied_in, called_in, call_in};

use crate::args::all_given;
use crate::bodies::enter;
use crate::given::{Given, passed_captures};
use hv_eval_env::{Callee, Level, Parts, value_callee};
use hv_eval_operands::copied;
use hv_eval_state::{Halt, Task, close_all};
use hv_items::Items;
use hv_partial::Held;
use hv_sem_copying::Cause;
use hv_tree::{Arg, Call, Expr, Name, Param, Place, Step};
use std::alloc::Global;

/// What a root and steps call: a local's value is copied, any other name is a top-level one.
#[tactic(auto, unfolding(hv_sem_copying::specs::Run::and_then))]
pub fn callee<
    'a,
    E: Fn(Level<'a>, usize, &mut Task, &Expr) -> Result<Held, Halt>,
    B: Fn(Level<'a>, &mut Task, u32) -> Result<Option<Held>, Halt>,
>(
    parts: &Parts<'a, E, B>,
    used: usize,
    task: &mut Task,
    root: &Name,
    steps: &[Step],
) -> Result<Callee, Halt>
    requires { Evals parts.now.level (E.pre parts.now.eval) (E.post parts.now.eval) }
    ensures { Gives callee_of (from (callee_in parts.now.level root.now steps.now) used task.old) result task.new }
{
    match parts.level.locals.find(root.text.as_str()) {
        Some(_) => {
            let held = copied(parts, used, task, root, steps)?;
            value_callee(task, held)
        }
        None => parts.level.top_callee(task, root, steps),
    }
}

// The parts of a construction.
fn all_parts<
    'a,
    E: Fn(Level<'a>, usize, &mut Task, &Expr) -> Result<Held, Halt>,
    B: Fn(Level<'a>, &mut Task, u32) -> Result<Option<Held>, Halt>,
>(parts: &Parts<'a, E, B>, used: usize, task: &mut Task, args: &[Arg]) -> Result<Items<Held>, Halt>
    requires { Evals parts.now.level (E.pre parts.now.eval) (E.post parts.now.eval) }
    ensures { Gives trees_of (from (parts_in parts.now.level [] args.now) used task.old) result task.new }
{
    let mut values = Items::new(parts.level.alloc);
    for arg in args {
        match arg {
            Arg::Value(x) => match parts.eval(used, task, x) {
                Ok(held) => values.push(held)?,
                Err(halt) => return Err(halt),
            },
            Arg::Ref(_, _) => return Err(Halt::Stuck(Cause::Kinds)),
        }
    }
    Ok(values)
}

/// A struct of the values of the arguments.
#[tactic(auto, unfolding(crate::specs::Calling::constructed_in, hv_sem_copying::specs::Run::and_then, hv_sem_copying::specs::Run::pure))]
fn construct<
    'a,
    E: Fn(Level<'a>, usize, &mut Task, &Expr) -> Result<Held, Halt>,
    B: Fn(Level<'a>, &mut Task, u32) -> Result<Option<Held>, Halt>,
>(parts: &Parts<'a, E, B>, used: usize, task: &mut Task, args: &[Arg]) -> Result<Held, Halt>
    requires { Evals parts.now.level (E.pre parts.now.eval) (E.post parts.now.eval) }
    ensures { Gives held_tree (from (constructed_in parts.now.level args.now) used task.old) result task.new }
{
    let values = all_parts(parts, used, task, args)?;
    Ok(Held::Struct(values))
}

// The arguments, and then the body, behind which their accesses close.
#[tactic(auto, unfolding(crate::specs::Calling::bodied_in, hv_sem_copying::specs::Run::and_then, hv_sem_copying::specs::Run::pure))]
fn run_with<
    'a,
    E: Fn(Level<'a>, usize, &mut Task, &Expr) -> Result<Held, Halt>,
    B: Fn(Level<'a>, &mut Task, u32) -> Result<Option<Held>, Halt>,
>(
    parts: &Parts<'a, E, B>,
    task: &mut Task,
    at: Place,
    f: u32,
    params: &[Param],
    args: &[Arg],
    begun: Given,
) -> Result<Option<Held>, Halt>
    requires evals { Evals parts.now.level (E.pre parts.now.eval) (E.post parts.now.eval) }
    requires bodies { Bodies parts.now.level (B.pre parts.now.body) (B.post parts.now.body) }
    ensures { (body : CoreBody) (n : ℕ) → Gives flow_of (from (bodied_in parts.now.level at f body params.now args.now begun.used (map passed_by begun.passed) (last_first begun.opens.items)) n task.old) result task.new }
{
    let given = all_given(parts, task, args, params, begun)?;
    let flow = enter(parts, task, at, f, given.passed)?;
    close_all(task, given.opens)?;
    Ok(flow)
}

// What a call without result gives is a struct without fields.
fn result_of(alloc: Global, flow: Option<Held>) -> Held
    ensures { held_tree result ≡ calls.result_of (flow_of flow) }
{
    match flow {
        Some(held) => held,
        None => Held::Struct(Items::new(alloc)),
    }
}

// A callee that is a body: its arguments behind its captures, and then its run.
fn call_body<
    'a,
    E: Fn(Level<'a>, usize, &mut Task, &Expr) -> Result<Held, Halt>,
    B: Fn(Level<'a>, &mut Task, u32) -> Result<Option<Held>, Halt>,
>(
    parts: &Parts<'a, E, B>,
    used: usize,
    task: &mut Task,
    at: Place,
    f: u32,
    captures: Items<Held>,
    args: &[Arg],
) -> Result<Held, Halt>
    requires evals { Evals parts.now.level (E.pre parts.now.eval) (E.post parts.now.eval) }
    requires bodies { Bodies parts.now.level (B.pre parts.now.body) (B.post parts.now.body) }
    ensures { Gives held_tree (from (called_in parts.now.level at args.now f (held_trees captures)) used task.old) result task.new }
{
    let Some(scoped) = parts.level.program.body(f) else {
        return Err(Halt::Stuck(Cause::Kinds));
    };
    let passed = passed_captures(parts.level.alloc, captures)?;
    let opens = Vec::new(parts.level.alloc);
    let begun = Given {
        used,
        passed,
        opens,
    };
    match run_with(parts, task, at, f, scoped.body.params, args, begun) {
        Ok(flow) => Ok(result_of(parts.level.alloc, flow)),
        Err(halt) => Err(halt),
    }
}

/// A call: the callee, the arguments in order, and then the body; a struct is made of its arguments.
pub fn call<
    'a,
    E: Fn(Level<'a>, usize, &mut Task, &Expr) -> Result<Held, Halt>,
    B: Fn(Level<'a>, &mut Task, u32) -> Result<Option<Held>, Halt>,
>(parts: &Parts<'a, E, B>, used: usize, task: &mut Task, call: &Call) -> Result<Held, Halt>
    requires evals { Evals parts.now.level (E.pre parts.now.eval) (E.post parts.now.eval) }
    requires bodies { Bodies parts.now.level (B.pre parts.now.body) (B.post parts.now.body) }
    ensures { Gives held_tree (from (call_in parts.now.level call.now) used task.old) result task.new }
{
    let args = call.args.as_slice();
    match callee(
        parts,
        used,
        task,
        &call.callee.root,
        call.callee.steps.as_slice(),
    ) {
        Ok(Callee::Constructs) => construct(parts, used, task, args),
        Ok(Callee::Enters(f, captures)) => {
            call_body(parts, used, task, call.paren, f, captures, args)
        }
        Err(halt) => Err(halt),
    }
}
