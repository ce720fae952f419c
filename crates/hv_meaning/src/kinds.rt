// What an expression gives, by its kind.
ghost use Rattle.std.specs.Prelude.{◌≡◌, ℕ};
ghost use Rattle.hv_value.specs.ValueTree.{Number, Truth};
ghost use Rattle.hv_partial.specs.HeldTree.{held_tree};
ghost use Rattle.hv_eval_state.specs.Gives.{Gives, from};
ghost use Rattle.hv_eval_env.specs.Level.{value_in};
ghost use Rattle.hv_eval_env.specs.Nests.{Evals, Bodies};
ghost use Rattle.hv_meaning.specs.Kinds.{awaited_in};

use hv_eval_calls::call;
use hv_eval_env::{Level, Parts};
use hv_eval_operands::{array, chain, counted, filled, lambda, named, prefix};
use hv_eval_state::{Halt, Task};
use hv_partial::Held;
use hv_sem_copying::Cause;
use hv_tree::{Expr, ExprKind, Name};

// Tasks have no rule yet.
#[tactic(auto, unfolding(hv_sem_copying::specs::Run::and_then, hv_sem_copying::specs::Run::halt))]
fn awaited<'a>(level: &Level<'a>, task: &Task, name: &Name) -> Result<Held, Halt>
    ensures { (n : ℕ) → Gives held_tree (from (awaited_in level.now name.now) n task.now) result task.now }
{
    level.local(task, name)?;
    Err(Halt::Stuck(Cause::Tasks))
}

fn number_held(number: &i64) -> Held
    ensures { held_tree result ≡ Number number.now }
{
    Held::Int(*number)
}

fn truth_held(truth: &bool) -> Held
    ensures { held_tree result ≡ Truth truth.now }
{
    Held::Bool(*truth)
}

/// What an expression gives, over what evaluates its parts.
#[tactic(auto, using(crate::proofs::KindLemmas::value_path, crate::proofs::KindLemmas::value_call, crate::proofs::KindLemmas::value_array_lit, crate::proofs::KindLemmas::value_filled, crate::proofs::KindLemmas::value_prefix, crate::proofs::KindLemmas::value_chain))]
pub fn value<
    'a,
    E: Fn(Level<'a>, usize, &mut Task, &Expr) -> Result<Held, Halt>,
    B: Fn(Level<'a>, &mut Task, u32) -> Result<Option<Held>, Halt>,
>(parts: &Parts<'a, E, B>, used: usize, task: &mut Task, x: &Expr) -> Result<Held, Halt>
    requires evals { Evals parts.now.level (E.pre parts.now.eval) (E.post parts.now.eval) }
    requires bodies { Bodies parts.now.level (B.pre parts.now.body) (B.post parts.now.body) }
    ensures { Gives held_tree (from (value_in parts.now.level x.now) used task.old) result task.new }
{
    match &x.kind {
        ExprKind::Int(number) => Ok(number_held(number)),
        ExprKind::Bool(truth) => Ok(truth_held(truth)),
        ExprKind::Path(place) => named(parts, used, task, &place.root, place.steps.as_slice()),
        ExprKind::Call(called) => call(parts, used, task, called),
        ExprKind::Await(name) => awaited(&parts.level, task, name),
        ExprKind::ArrayLit(elements) => array(parts, used, task, elements.as_slice()),
        ExprKind::Filled(length, element) => {
            filled(parts, used, task, x.place, length.get(), element.get())
        }
        ExprKind::Count(place) => counted(parts, used, task, &place.root, place.steps.as_slice()),
        ExprKind::Lambda(captures, _, _, body) => {
            lambda(&parts.level, task, captures.as_slice(), body)
        }
        ExprKind::Prefix(operator, operand) => {
            prefix(parts, used, task, x.place, *operator, operand.get())
        }
        ExprKind::Chain(first, links) => chain(parts, used, task, first.get(), links.as_slice()),
    }
}
