// What a program's root does.
ghost use Rattle.std.specs.Prelude.{◌≡◌, IfOk, Some, option_map, codes};
ghost use Rattle.hv_tree.specs.Core.{core_tree};
ghost use Rattle.hv_sem_copying.specs.Calls as calls;
ghost use Rattle.hv_sem_copying.specs.Meaning.{IsSafe, node_of};
ghost use Rattle.hv_sem_copying.specs.Meaning as meaning;
ghost use Rattle.hv_sem_flat.specs.Programs as flat;
ghost use Rattle.hv_partial.specs.HeldTree.{held_tree};
ghost use Rattle.hv_eval_env.specs.Level.{flow_of};
ghost use Rattle.hv_sem_copying.specs.Run.{Res, Now, Flow};
ghost use Rattle.hv_sem_copying.specs.Copying as copying;
ghost use Rattle.hv_eval_state.specs.Gives.{Gives, now_of};
ghost use Rattle.hv_task_tree.specs.Seen.{node_seen};

use crate::tie::body_at;
use hv_eval_env::{Level, Program};
use hv_eval_state::{Halt, Task};
use hv_items::Items;
use hv_partial::Held;
use hv_scope::Locals;
use hv_sem_flat::flat_is_copying;
use hv_task_tree::{End, TaskNode};
use hv_tree::Tree;
use std::alloc::{AllocError as NoMemory, Global};

// How many activations may be open at once.
const MOST_DEPTH: u32 = 1000;

// The number of the body of `main`.
fn main_in<'t>(program: &Program<'t>) -> Option<u32>
    ensures { result ≡ meaning.main_in (core_tree program.now) }
{
    match program.declared().find_function("main") {
        Some(function) => program.number_of(&function.body),
        None => None,
    }
}

// The root before its first step.
fn fresh(alloc: Global, steps: u64) -> Task
    ensures { now_of result ≡ meaning.start steps }
{
    Task {
        steps,
        output: Items::new(alloc),
        locals: Items::new(alloc),
    }
}

// What a body gives; without a Return a struct without fields.
fn given(alloc: Global, flow: Option<Held>) -> Held
    ensures { held_tree result ≡ calls.result_of (flow_of flow) }
{
    match flow {
        Some(held) => held,
        None => Held::Struct(Items::new(alloc)),
    }
}

// What the root has done, by how its body ended.
fn node_at(
    alloc: Global,
    steps: u64,
    task: Task,
    ended: Result<Option<Held>, Halt>,
) -> Result<Option<TaskNode>, NoMemory>
    ensures { (run : Res (Now copying.Locals × Flow)) → Gives flow_of run ended task → IfOk result (λ node. option_map node_seen node ≡ meaning.node_by steps run) }
{
    let end = match ended {
        Ok(flow) => End::Done(given(alloc, flow)),
        Err(Halt::Trap(kind, at)) => End::Trap(kind, at),
        Err(Halt::Spent(at)) => End::Spent(at),
        Err(Halt::Stuck(_)) => return Ok(None),
        Err(Halt::NoMemory) => return Err(NoMemory),
    };
    Ok(Some(TaskNode {
        used: steps.saturating_sub(task.steps),
        end,
        output: task.output,
    }))
}

// What the root does whose body has this number.
fn run_root<'t>(
    alloc: Global,
    program: &Program<'t>,
    main: u32,
    steps: u64,
) -> Result<Option<TaskNode>, NoMemory>
    ensures { IfOk result (λ node. option_map node_seen node ≡ flat.root_by (core_tree program.now) steps (Some main)) }
{
    let outside = Locals::of(alloc, Vec::new(alloc))?;
    let mut task = fresh(alloc, steps);
    let level = Level {
        alloc,
        program,
        locals: &outside,
        left: MOST_DEPTH,
        nesting: 0,
    };
    let ended = body_at(level, &mut task, main);
    node_at(alloc, steps, task, ended)
}

/// What the root does with so many steps; None where the program comes to what there is no rule for.
#[tactic(auto, unfolding(hv_sem_flat::specs::Programs::node_of))]
pub fn evaluate(alloc: Global, tree: &Tree, steps: u64) -> Result<Option<TaskNode>, NoMemory>
    ensures { IfOk result (λ node. option_map node_seen node ≡ node_of (core_tree tree.now) steps) }
{
    flat_is_copying();
    let program = Program::new(alloc, tree)?;
    match main_in(&program) {
        Some(main) => run_root(alloc, &program, main, steps),
        None => Ok(None),
    }
}

/// What the root of a safe program does with so many steps.
pub fn plain(alloc: Global, tree: &Tree, steps: u64) -> Result<TaskNode, NoMemory>
    requires { IsSafe (core_tree tree.now) }
    ensures { IfOk result (λ node. node_of (core_tree tree.now) steps ≡ Some (node_seen node)) }
{
    match evaluate(alloc, tree, steps)? {
        Some(node) => Ok(node),
        None => unreachable!(),
    }
}
