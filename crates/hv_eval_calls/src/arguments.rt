// One argument, by the convention of its parameter.

ghost use Rattle.std.specs.Prelude.{◌≡◌, ℕ, IfOk, Some, None, map, option_map, get_or};
ghost use Rattle.hv_tree.specs.Core.{core_of};
ghost use Rattle.hv_value.specs.ValueTree.{ValueTree, Hole};
ghost use Rattle.hv_value.specs.Places as places;
ghost use Rattle.hv_value.specs.Holes as holes;
ghost use Rattle.hv_sem_flat.specs.Accesses.{Plain};
ghost use Rattle.hv_sem_flat.specs.Parts as flat;
ghost use Rattle.hv_partial.specs.HeldTree.{held_tree};
ghost use Rattle.hv_eval_state.specs.Gives.{Gives, from};
ghost use Rattle.hv_eval_state.specs.Spots.{spot_of};
ghost use Rattle.hv_eval_env.specs.Level.{value_in};
ghost use Rattle.hv_eval_env.specs.Nests.{Evals, Bodies};
ghost use Rattle.hv_eval_operands.specs.Places.{found_by};
ghost use Rattle.hv_eval_calls.specs.Arguments.{argument_by};
ghost use Rattle.hv_eval_calls.specs.Calling.{emptied_given, argument_in, place_of};

use crate::given::Argument;
use hv_eval_env::{Level, Parts};
use hv_eval_operands::{found, place_in};
use hv_eval_state::{Halt, Mode, Spot, Task, put_there, take_there};
use hv_items::at;
use hv_partial::{Held, emptied, get};
use hv_sem_copying::Cause;
use hv_tree::{Arg, Conv, Expr, PlaceExpr};
use std::alloc::{AllocError as NoMemory, Global};

// What the place holds once its leaves have become holes.
#[tactic(auto, using(hv_eval_state::proofs::LocalLemmas::by_look, hv_eval_state::proofs::LocalLemmas::by_hole))]
fn emptied_at(alloc: Global, locals: &[Held], spot: &Spot) -> Result<Option<Held>, NoMemory>
    ensures { IfOk result (λ o. option_map held_tree o ≡ option_map holes.emptied (places.get (get_or (map held_tree locals.now) spot.now.root Hole) spot.now.path)) }
{
    match at(locals, spot.root) {
        Some(held) => match get(held, spot.path.as_slice()) {
            Some(there) => Ok(Some(emptied(alloc, there)?)),
            None => Ok(None),
        },
        None => match spot.path.as_slice() {
            [] => Ok(Some(Held::Hole)),
            [_, ..] => Ok(None),
        },
    }
}

// A place that the callee fills, in which holes are made first.
#[tactic(auto, using(crate::proofs::GivenLemmas::emptied_nowhere))]
fn emptied_argument(alloc: Global, task: &mut Task, place: Spot) -> Result<Argument, Halt>
    ensures { (n : ℕ) → Gives argument_by (from (emptied_given (spot_of place)) n task.old) result task.new }
{
    let Some(rest) = emptied_at(alloc, task.locals.as_slice(), &place)? else {
        return Err(Halt::Stuck(Cause::Holes));
    };
    match put_there(task, &place, rest) {
        Ok(()) => Ok(Argument::Lends(Mode::Sets, place)),
        Err(halt) => Err(halt),
    }
}

// An argument without `&` that is a place.
#[tactic(auto, unfolding(hv_sem_copying::specs::Run::and_then, hv_sem_copying::specs::Run::pure, hv_sem_copying::specs::Run::halt))]
fn placed_argument<
    'a,
    E: Fn(Level<'a>, usize, &mut Task, &Expr) -> Result<Held, Halt>,
    B: Fn(Level<'a>, &mut Task, u32) -> Result<Option<Held>, Halt>,
>(
    parts: &Parts<'a, E, B>,
    used: usize,
    task: &mut Task,
    conv: Conv,
    place: &PlaceExpr,
) -> Result<Argument, Halt>
    requires { Evals parts.now.level (E.pre parts.now.eval) (E.post parts.now.eval) }
    ensures { (x : Plain ValueTree) → Gives argument_by (from (flat.value_given conv (Some (found_by parts.now.level place.now)) x) used task.old) result task.new }
{
    match conv {
        Conv::Let => {
            let spot = found(parts, used, task, &place.root, place.steps.as_slice())?;
            Ok(Argument::Lends(Mode::Reads, spot))
        }
        Conv::Sink => {
            let spot = found(parts, used, task, &place.root, place.steps.as_slice())?;
            let held = take_there(parts.level.alloc, task, &spot)?;
            Ok(Argument::Owns(Mode::Writes, held))
        }
        Conv::Inout | Conv::Set => Err(Halt::Stuck(Cause::Kinds)),
    }
}

// An argument without `&` that is no place.
#[tactic(auto, unfolding(hv_sem_copying::specs::Run::and_then, hv_sem_copying::specs::Run::pure, hv_sem_copying::specs::Run::halt))]
fn owned_argument<
    'a,
    E: Fn(Level<'a>, usize, &mut Task, &Expr) -> Result<Held, Halt>,
    B: Fn(Level<'a>, &mut Task, u32) -> Result<Option<Held>, Halt>,
>(
    parts: &Parts<'a, E, B>,
    used: usize,
    task: &mut Task,
    conv: Conv,
    x: &Expr,
) -> Result<Argument, Halt>
    requires { Evals parts.now.level (E.pre parts.now.eval) (E.post parts.now.eval) }
    ensures { Gives argument_by (from (flat.value_given conv None (value_in parts.now.level x.now)) used task.old) result task.new }
{
    match conv {
        Conv::Let => {
            let held = parts.eval(used, task, x)?;
            Ok(Argument::Owns(Mode::Reads, held))
        }
        Conv::Sink => {
            let held = parts.eval(used, task, x)?;
            Ok(Argument::Owns(Mode::Writes, held))
        }
        Conv::Inout | Conv::Set => Err(Halt::Stuck(Cause::Kinds)),
    }
}

// An argument without `&`.
fn value_argument<
    'a,
    E: Fn(Level<'a>, usize, &mut Task, &Expr) -> Result<Held, Halt>,
    B: Fn(Level<'a>, &mut Task, u32) -> Result<Option<Held>, Halt>,
>(
    parts: &Parts<'a, E, B>,
    used: usize,
    task: &mut Task,
    conv: Conv,
    x: &Expr,
) -> Result<Argument, Halt>
    requires { Evals parts.now.level (E.pre parts.now.eval) (E.post parts.now.eval) }
    ensures { Gives argument_by (from (flat.value_given conv (place_of parts.now.level (core_of x.now)) (value_in parts.now.level x.now)) used task.old) result task.new }
{
    match place_in(&parts.level, x) {
        Some(place) => placed_argument(parts, used, task, conv, place),
        None => owned_argument(parts, used, task, conv, x),
    }
}

// An argument with `&`.
#[tactic(auto, unfolding(hv_sem_copying::specs::Run::and_then, hv_sem_copying::specs::Run::pure, hv_sem_copying::specs::Run::halt))]
fn place_argument<
    'a,
    E: Fn(Level<'a>, usize, &mut Task, &Expr) -> Result<Held, Halt>,
    B: Fn(Level<'a>, &mut Task, u32) -> Result<Option<Held>, Halt>,
>(
    parts: &Parts<'a, E, B>,
    used: usize,
    task: &mut Task,
    conv: Conv,
    place: &PlaceExpr,
) -> Result<Argument, Halt>
    requires { Evals parts.now.level (E.pre parts.now.eval) (E.post parts.now.eval) }
    ensures { Gives argument_by (from (flat.place_given conv (found_by parts.now.level place.now)) used task.old) result task.new }
{
    match conv {
        Conv::Inout => {
            let spot = found(parts, used, task, &place.root, place.steps.as_slice())?;
            Ok(Argument::Lends(Mode::Writes, spot))
        }
        Conv::Set => {
            let spot = found(parts, used, task, &place.root, place.steps.as_slice())?;
            emptied_argument(parts.level.alloc, task, spot)
        }
        Conv::Let | Conv::Sink => Err(Halt::Stuck(Cause::Kinds)),
    }
}

/// An argument for a parameter of this convention.
#[tactic(auto, using(crate::proofs::GivenLemmas::value_first, crate::proofs::GivenLemmas::ref_first))]
pub fn argument<
    'a,
    E: Fn(Level<'a>, usize, &mut Task, &Expr) -> Result<Held, Halt>,
    B: Fn(Level<'a>, &mut Task, u32) -> Result<Option<Held>, Halt>,
>(
    parts: &Parts<'a, E, B>,
    used: usize,
    task: &mut Task,
    conv: Conv,
    arg: &Arg,
) -> Result<Argument, Halt>
    requires { Evals parts.now.level (E.pre parts.now.eval) (E.post parts.now.eval) }
    ensures { Gives argument_by (from (argument_in parts.now.level conv arg.now) used task.old) result task.new }
{
    match arg {
        Arg::Value(x) => value_argument(parts, used, task, conv, x),
        Arg::Ref(_, place) => place_argument(parts, used, task, conv, place),
    }
}
