// Values of the kind that is asked for, operators, filled arrays and printing.

ghost use Rattle.std.specs.Prelude.{◌≡◌, ℕ, [], ◌∷◌, ◌++◌, option_map};
ghost use Rattle.hv_value.specs.Texts as texts;
ghost use Rattle.hv_sem_copying.specs.Run as run;
ghost use Rattle.hv_sem_copying.specs.Operations as operations;
ghost use Rattle.hv_value.specs.Operators as operators;
ghost use Rattle.hv_partial.specs.HeldTree.{held_tree};
ghost use Rattle.hv_partial.specs.Results.{given_of};
ghost use Rattle.hv_eval_state.specs.Gives.{Gives, from, nothing, itself};

use crate::paid::say;
use crate::task::{Halt, Task};
use hv_partial::{Computed, Held};
use hv_sem_copying::{Cause, TrapKind};
use hv_tree::{Operator, Place};
use std::alloc::{AllocError, Global};

/// The number that a tree is.
#[tactic(auto, unfolding(hv_sem_copying::specs::Run::pure, hv_sem_copying::specs::Run::halt))]
pub fn number(task: &Task, held: &Held) -> Result<i64, Halt>
    ensures { (n : ℕ) → Gives itself (from (operations.number (held_tree held.now)) n task.now) result task.now }
{
    match held {
        Held::Int(z) => Ok(*z),
        _ => Err(Halt::Stuck(Cause::Kinds)),
    }
}

/// The truth value that a tree is.
#[tactic(auto, unfolding(hv_sem_copying::specs::Run::pure, hv_sem_copying::specs::Run::halt))]
pub fn truth(task: &Task, held: &Held) -> Result<bool, Halt>
    ensures { (n : ℕ) → Gives itself (from (operations.truth (held_tree held.now)) n task.now) result task.now }
{
    match held {
        Held::Bool(b) => Ok(*b),
        _ => Err(Halt::Stuck(Cause::Kinds)),
    }
}

/// Whether `&&` or `||` stops at this operand.
pub fn decides(operator: Operator, held: &Held) -> bool
    ensures { result ≡ operators.decides operator (held_tree held.now) }
{
    match (operator, held) {
        (Operator::And, Held::Bool(b)) => !*b,
        (Operator::Or, Held::Bool(b)) => *b,
        _ => false,
    }
}

#[tactic(auto, using(crate::proofs::ComputeLemmas::by_given))]
fn given(task: &Task, at: Place, computed: Option<Computed>) -> Result<Held, Halt>
    ensures { (n : ℕ) → Gives held_tree (from (operations.applied at (option_map given_of computed)) n task.now) result task.now }
{
    match computed {
        Some(Computed::Gives(held)) => Ok(held),
        Some(Computed::Overflow) => Err(Halt::Trap(TrapKind::Overflow, at)),
        Some(Computed::DivZero) => Err(Halt::Trap(TrapKind::DivZero, at)),
        None => Err(Halt::Stuck(Cause::Kinds)),
    }
}

/// What an operator gives, or its trap.
pub fn binary(task: &Task, operator: Operator, at: Place, a: &Held, b: &Held) -> Result<Held, Halt>
    ensures { (n : ℕ) → Gives held_tree (from (operations.applied at (operators.binary operator (held_tree a.now) (held_tree b.now))) n task.now) result task.now }
{
    given(task, at, hv_partial::binary(operator, a, b))
}

/// What an operator with one operand gives, or its trap.
pub fn unary(task: &Task, operator: Operator, at: Place, a: &Held) -> Result<Held, Halt>
    ensures { (n : ℕ) → Gives held_tree (from (operations.applied at (operators.unary operator (held_tree a.now))) n task.now) result task.now }
{
    given(task, at, hv_partial::unary(operator, a))
}

/// Prints a line.
#[tactic(auto, unfolding(hv_sem_copying::specs::Run::say))]
pub fn print(alloc: Global, task: &mut Task, held: &Held) -> Result<(), Halt>
    ensures { (n : ℕ) → Gives nothing (from (run.say (texts.text (held_tree held.now) ++ 10 ∷ [])) n task.old) result task.new }
{
    let mut line = hv_partial::text(alloc, held)?;
    line.push(b'\n').map_err(AllocError::from)?;
    say(task, line.as_slice())
}
