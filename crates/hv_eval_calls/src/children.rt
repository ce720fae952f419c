// The callee of a spawn, and its arguments.

ghost use Rattle.std.specs.Prelude.{◌≡◌, ℕ, map, option_map};
ghost use Rattle.std.specs.Option.{option_copied};
ghost use Rattle.hv_sem_flat.specs.Parts as flat;
ghost use Rattle.hv_partial.specs.HeldTree.{held_trees};
ghost use Rattle.hv_eval_state.specs.Gives.{Gives, from};
ghost use Rattle.hv_eval_env.specs.Level.{value_in};
ghost use Rattle.hv_eval_env.specs.Nests.{Evals, Bodies};
ghost use Rattle.hv_eval_operands.specs.Places.{found_by};
ghost use Rattle.hv_eval_calls.specs.Passes.{passed_by};
ghost use Rattle.hv_eval_calls.specs.Calling.{owned_in, all_owned_in, begun_in, child_in};
ghost use Rattle.hv_eval_calls.specs.Children.{passed_of, child_of};

use crate::calls::callee;
use crate::given::passed_captures;
use crate::passed::Passed;
use hv_eval_env::{Callee, Level, Parts, Scoped};
use hv_eval_operands::{found, place_in};
use hv_eval_state::{Halt, Mode, Task, take_there};
use hv_items::{Items, at};
use hv_partial::Held;
use hv_sem_copying::Cause;
use hv_tree::{Arg, Call, Conv, Expr, Param, PlaceExpr};

/// What a child runs: a body, and what that is entered with.
#[derive(Drop)]
pub struct Spawn<'a> {
    /// The number of the body.
    pub number: u32,
    pub body: &'a Scoped<'a>,
    /// What the body is entered with.
    pub given: Items<Passed>,
}

// An argument without `&`, which is moved where it is a place that the child takes over.
#[tactic(auto, unfolding(hv_sem_copying::specs::Run::and_then, hv_sem_copying::specs::Run::pure, hv_sem_copying::specs::Run::halt))]
fn own_value<
    'a,
    'x,
    E: Fn(Level<'a>, usize, &mut Task, &Expr) -> Result<Held, Halt>,
    B: Fn(Level<'a>, &mut Task, u32) -> Result<Option<Held>, Halt>,
>(
    parts: &Parts<'a, E, B>,
    used: usize,
    task: &mut Task,
    conv: Conv,
    x: &Expr,
    place: Option<&'x PlaceExpr>,
) -> Result<Passed, Halt>
    requires { Evals parts.now.level (E.pre parts.now.eval) (E.post parts.now.eval) }
    ensures { Gives passed_by (from (flat.own_value conv (option_map (found_by parts.now.level) (option_copied place.entry)) (value_in parts.now.level x.now)) used task.old) result task.new }
{
    match conv {
        Conv::Let => {
            let held = parts.eval(used, task, x)?;
            Ok(Passed::Value(Mode::Reads, held))
        }
        Conv::Sink => match place {
            Some(place) => {
                let spot = found(parts, used, task, &place.root, place.steps.as_slice())?;
                let held = take_there(parts.level.alloc, task, &spot)?;
                Ok(Passed::Value(Mode::Writes, held))
            }
            None => {
                let held = parts.eval(used, task, x)?;
                Ok(Passed::Value(Mode::Writes, held))
            }
        },
        Conv::Inout | Conv::Set => Err(Halt::Stuck(Cause::Kinds)),
    }
}

// An argument of a spawn, which takes values alone.
fn owned<
    'a,
    E: Fn(Level<'a>, usize, &mut Task, &Expr) -> Result<Held, Halt>,
    B: Fn(Level<'a>, &mut Task, u32) -> Result<Option<Held>, Halt>,
>(
    parts: &Parts<'a, E, B>,
    used: usize,
    task: &mut Task,
    conv: Conv,
    arg: &Arg,
) -> Result<Passed, Halt>
    requires { Evals parts.now.level (E.pre parts.now.eval) (E.post parts.now.eval) }
    ensures { Gives passed_by (from (owned_in parts.now.level conv arg.now) used task.old) result task.new }
{
    match arg {
        Arg::Value(x) => {
            let place = place_in(&parts.level, x);
            own_value(parts, used, task, conv, x, place)
        }
        Arg::Ref(_, _) => Err(Halt::Stuck(Cause::Kinds)),
    }
}

// The arguments of a spawn in order, behind those that are passed already.
fn all_owned<
    'a,
    E: Fn(Level<'a>, usize, &mut Task, &Expr) -> Result<Held, Halt>,
    B: Fn(Level<'a>, &mut Task, u32) -> Result<Option<Held>, Halt>,
>(
    parts: &Parts<'a, E, B>,
    used: usize,
    task: &mut Task,
    args: &[Arg],
    params: &[Param],
    begun: Items<Passed>,
) -> Result<Items<Passed>, Halt>
    requires { Evals parts.now.level (E.pre parts.now.eval) (E.post parts.now.eval) }
    ensures { Gives passed_of (from (all_owned_in parts.now.level args.now params.now (map passed_by begun)) used task.old) result task.new }
{
    let mut given = begun;
    for (i, arg) in args.iter().enumerate() {
        let Some(param) = at(params, i) else {
            return Err(Halt::Stuck(Cause::Kinds));
        };
        match owned(parts, used, task, param.conv, arg) {
            Ok(passed) => given.push(passed)?,
            Err(halt) => return Err(halt),
        }
    }
    if args.len() < params.len() {
        return Err(Halt::Stuck(Cause::Kinds));
    }
    Ok(given)
}

// A body that a child runs, with its arguments behind its captures.
fn child_body<
    'a,
    E: Fn(Level<'a>, usize, &mut Task, &Expr) -> Result<Held, Halt>,
    B: Fn(Level<'a>, &mut Task, u32) -> Result<Option<Held>, Halt>,
>(
    parts: &Parts<'a, E, B>,
    used: usize,
    task: &mut Task,
    number: u32,
    captures: Items<Held>,
    args: &[Arg],
) -> Result<Spawn<'a>, Halt>
    requires { Evals parts.now.level (E.pre parts.now.eval) (E.post parts.now.eval) }
    ensures { Gives child_of (from (begun_in parts.now.level args.now number (held_trees captures)) used task.old) result task.new }
{
    let Some(body) = parts.level.program.body(number) else {
        return Err(Halt::Stuck(Cause::Kinds));
    };
    let passed = passed_captures(parts.level.alloc, captures)?;
    match all_owned(parts, used, task, args, body.body.params, passed) {
        Ok(given) => Ok(Spawn {
            number,
            body,
            given,
        }),
        Err(halt) => Err(halt),
    }
}

/// The callee and the arguments of a spawn. A struct is no callee.
pub fn child<
    'a,
    E: Fn(Level<'a>, usize, &mut Task, &Expr) -> Result<Held, Halt>,
    B: Fn(Level<'a>, &mut Task, u32) -> Result<Option<Held>, Halt>,
>(parts: &Parts<'a, E, B>, used: usize, task: &mut Task, call: &Call) -> Result<Spawn<'a>, Halt>
    requires { Evals parts.now.level (E.pre parts.now.eval) (E.post parts.now.eval) }
    ensures { Gives child_of (from (child_in parts.now.level call.now) used task.old) result task.new }
{
    let args = call.args.as_slice();
    match callee(
        parts,
        used,
        task,
        &call.callee.root,
        call.callee.steps.as_slice(),
    ) {
        Ok(Callee::Constructs) => Err(Halt::Stuck(Cause::Kinds)),
        Ok(Callee::Enters(number, captures)) => {
            child_body(parts, used, task, number, captures, args)
        }
        Err(halt) => Err(halt),
    }
}
