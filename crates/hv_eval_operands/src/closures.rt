// Lambdas and their captures.

ghost use Rattle.std.specs.Prelude.{ℕ, [], map};
ghost use Rattle.hv_tree.specs.Core.{core_block};
ghost use Rattle.hv_partial.specs.HeldTree.{held_tree};
ghost use Rattle.hv_eval_state.specs.Gives.{Gives, from};
ghost use Rattle.hv_eval_operands.specs.Operands.{trees, captured_in, capture_in, lambda_in};

use hv_eval_env::Level;
use hv_eval_state::{Halt, Task, copy_there, look};
use hv_items::Items;
use hv_partial::Held;
use hv_sem_copying::Cause;
use hv_tree::{Block, Name};

// A copy of a local, which is paid at the captured name.
#[tactic(auto, using(crate::proofs::CaptureLemmas::by_capture), unfolding(hv_sem_copying::specs::Run::and_then, hv_eval_state::specs::Spots::copied_there))]
fn capture<'a>(level: &Level<'a>, task: &mut Task, name: &Name) -> Result<Held, Halt>
    ensures { (n : ℕ) → Gives held_tree (from (capture_in level.now name.now) n task.old) result task.new }
{
    match level.locals.find(name.text.as_str()) {
        Some((number, _)) => {
            let spot = look(level.alloc, task, number, &[])?;
            copy_there(level.alloc, task, &spot, name.place)
        }
        None => Err(Halt::Stuck(Cause::Kinds)),
    }
}

/// Copies of the captured locals in order, each of which is paid at the captured name.
#[tactic(auto, unfolding(hv_sem_copying::specs::Run::pure))]
pub fn captured<'a>(level: &Level<'a>, task: &mut Task, names: &[Name]) -> Result<Items<Held>, Halt>
    ensures { (n : ℕ) → Gives trees (from (captured_in level.now [] names.now) n task.old) result task.new }
{
    let mut captures = Items::new(level.alloc);
    for name in names {
        let held = capture(level, task, name)?;
        captures.push(held)?;
    }
    Ok(captures)
}

/// A function value: the body with this block, and its captures.
#[tactic(auto, using(crate::proofs::CaptureLemmas::by_number), unfolding(hv_sem_copying::specs::Run::and_then, hv_sem_copying::specs::Run::pure, hv_sem_copying::specs::Run::halt))]
pub fn lambda<'a>(
    level: &Level<'a>,
    task: &mut Task,
    captures: &[Name],
    body: &Block,
) -> Result<Held, Halt>
    ensures { (n : ℕ) → Gives held_tree (from (lambda_in level.now captures.now (core_block body.now)) n task.old) result task.new }
{
    let captures = captured(level, task, captures)?;
    match level.program.number_of(body) {
        Some(number) => Ok(Held::Fun(number, captures)),
        None => Err(Halt::Stuck(Cause::Kinds)),
    }
}
