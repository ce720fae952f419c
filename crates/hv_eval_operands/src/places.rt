// Places: finding, copying, moving and counting.

ghost use Rattle.std.specs.Prelude.{◌≡◌, ℕ, pos, IfOk, option_map};
ghost use Rattle.std.specs.Option.{option_copied};
ghost use Rattle.hv_tree.specs.Core.{core_of, core_steps};
ghost use Rattle.hv_decls.specs.Locals.{number_in};
ghost use Rattle.hv_value.specs.ValueTree.{Number};
ghost use Rattle.hv_sem_flat.specs.Flat as flat;
ghost use Rattle.hv_sem_flat.specs.Parts as spec;
ghost use Rattle.hv_partial.specs.HeldTree.{held_tree};
ghost use Rattle.hv_eval_state.specs.Gives.{Gives, from};
ghost use Rattle.hv_eval_state.specs.Spots.{spot_of};
ghost use Rattle.hv_eval_env.specs.Level.{tree_in, locals_in, deeper_in};
ghost use Rattle.hv_eval_env.specs.Nests.{Evals, Bodies};
ghost use Rattle.hv_eval_operands.specs.Places.{found_in, found_by, moved_from, count_there};

use crate::linking::links;
use hv_eval_env::{Level, Parts};
use hv_eval_state::{Halt, Spot, Task, copy_there, look, take_there};
use hv_items::at;
use hv_partial::{Held, get, length_of};
use hv_scope::value_type;
use hv_sem_copying::Cause;
use hv_tree::{Expr, ExprKind, Name, PlaceExpr, Step};
use std::alloc::AllocError as NoMemory;

/// The place that a root and steps name: the indices are evaluated in order, and then tested in order.
#[tactic(auto, unfolding(hv_sem_copying::specs::Run::and_then, hv_sem_copying::specs::Run::halt))]
pub fn found<
    'a,
    E: Fn(Level<'a>, usize, &mut Task, &Expr) -> Result<Held, Halt>,
    B: Fn(Level<'a>, &mut Task, u32) -> Result<Option<Held>, Halt>,
>(
    parts: &Parts<'a, E, B>,
    used: usize,
    task: &mut Task,
    root: &Name,
    steps: &[Step],
) -> Result<Spot, Halt>
    requires { Evals parts.now.level (E.pre parts.now.eval) (E.post parts.now.eval) }
    ensures { Gives spot_of (from (found_in parts.now.level root.now steps.now) used task.old) result task.new }
{
    let Some((number, known)) = parts.level.locals.find(root.text.as_str()) else {
        return Err(Halt::Stuck(Cause::Kinds));
    };
    let links = links(parts, used, task, value_type(&known), steps)?;
    look(parts.level.alloc, task, number, links.as_slice())
}

/// The place that the expression is, where its root is a local.
#[tactic(auto, using(crate::proofs::PlaceLemmas::place_opened, crate::proofs::PlaceLemmas::place_local, crate::proofs::PlaceLemmas::place_top), unfolding(crate::proofs::PlaceLemmas::place_by))]
pub fn place_in<'a, 'x>(level: &Level<'a>, x: &'x Expr) -> Option<&'x PlaceExpr>
    ensures { option_map (found_by level.now) (option_copied result) ≡ flat.place_in (tree_in level.now) (locals_in level.now) (deeper_in level.now) (core_of x.now) }
{
    match &x.kind {
        ExprKind::Path(place) => match level.locals.find(place.root.text.as_str()) {
            Some(_) => Some(place),
            None => None,
        },
        _ => None,
    }
}

/// Copies what stands at a place, which is paid at its root name.
#[tactic(auto, unfolding(hv_sem_copying::specs::Run::and_then, hv_eval_state::specs::Spots::copied_there))]
pub fn copied<
    'a,
    E: Fn(Level<'a>, usize, &mut Task, &Expr) -> Result<Held, Halt>,
    B: Fn(Level<'a>, &mut Task, u32) -> Result<Option<Held>, Halt>,
>(
    parts: &Parts<'a, E, B>,
    used: usize,
    task: &mut Task,
    root: &Name,
    steps: &[Step],
) -> Result<Held, Halt>
    requires { Evals parts.now.level (E.pre parts.now.eval) (E.post parts.now.eval) }
    ensures { Gives held_tree (from (spec.copied root.now.place (found_in parts.now.level root.now steps.now)) used task.old) result task.new }
{
    let spot = found(parts, used, task, root, steps)?;
    copy_there(parts.level.alloc, task, &spot, root.place)
}

/// A name with its steps as a value: a local's place is copied, any other name is a function's.
pub fn named<
    'a,
    E: Fn(Level<'a>, usize, &mut Task, &Expr) -> Result<Held, Halt>,
    B: Fn(Level<'a>, &mut Task, u32) -> Result<Option<Held>, Halt>,
>(
    parts: &Parts<'a, E, B>,
    used: usize,
    task: &mut Task,
    root: &Name,
    steps: &[Step],
) -> Result<Held, Halt>
    requires { Evals parts.now.level (E.pre parts.now.eval) (E.post parts.now.eval) }
    ensures { Gives held_tree (from (spec.named (tree_in parts.now.level) (number_in (locals_in parts.now.level) root.now.text) root.now (core_steps steps.now) (found_in parts.now.level root.now steps.now)) used task.old) result task.new }
{
    match parts.level.locals.find(root.text.as_str()) {
        Some(_) => copied(parts, used, task, root, steps),
        None => parts.level.top_value(task, root, steps),
    }
}

/// Takes what stands at a place, whose holes stay behind.
#[tactic(auto, unfolding(hv_sem_copying::specs::Run::and_then))]
pub fn moved<
    'a,
    E: Fn(Level<'a>, usize, &mut Task, &Expr) -> Result<Held, Halt>,
    B: Fn(Level<'a>, &mut Task, u32) -> Result<Option<Held>, Halt>,
>(
    parts: &Parts<'a, E, B>,
    used: usize,
    task: &mut Task,
    root: &Name,
    steps: &[Step],
) -> Result<Held, Halt>
    requires { Evals parts.now.level (E.pre parts.now.eval) (E.post parts.now.eval) }
    ensures { Gives held_tree (from (moved_from (found_in parts.now.level root.now steps.now)) used task.old) result task.new }
{
    let spot = found(parts, used, task, root, steps)?;
    take_there(parts.level.alloc, task, &spot)
}

fn natural(n: usize) -> Result<Held, NoMemory>
    ensures { IfOk result (λ held. held_tree held ≡ Number (pos n)) }
{
    match i64::try_from(n) {
        Ok(n) => Ok(Held::Int(n)),
        Err(_) => Err(NoMemory),
    }
}

#[tactic(auto, using(hv_eval_state::proofs::LocalLemmas::by_look, crate::proofs::PlaceLemmas::by_length))]
fn count_there(task: &Task, spot: &Spot) -> Result<Held, Halt>
    ensures { (n : ℕ) → Gives held_tree (from (count_there (spot_of spot.now)) n task.now) result task.now }
{
    let Some(held) = at(task.locals.as_slice(), spot.root) else {
        return Err(Halt::Stuck(Cause::Holes));
    };
    let Some(array) = get(held, spot.path.as_slice()) else {
        return Err(Halt::Stuck(Cause::Holes));
    };
    let Some(length) = length_of(array) else {
        return Err(Halt::Stuck(Cause::Holes));
    };
    Ok(natural(length)?)
}

/// The length of the array at a place.
#[tactic(auto, unfolding(hv_sem_copying::specs::Run::and_then, crate::specs::Places::count_there))]
pub fn counted<
    'a,
    E: Fn(Level<'a>, usize, &mut Task, &Expr) -> Result<Held, Halt>,
    B: Fn(Level<'a>, &mut Task, u32) -> Result<Option<Held>, Halt>,
>(
    parts: &Parts<'a, E, B>,
    used: usize,
    task: &mut Task,
    root: &Name,
    steps: &[Step],
) -> Result<Held, Halt>
    requires { Evals parts.now.level (E.pre parts.now.eval) (E.post parts.now.eval) }
    ensures { Gives held_tree (from (spec.counted (found_in parts.now.level root.now steps.now)) used task.old) result task.new }
{
    let spot = found(parts, used, task, root, steps)?;
    count_there(task, &spot)
}
