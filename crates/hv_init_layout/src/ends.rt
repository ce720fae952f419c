// Where the leaves under each path of a plan begin and end.
ghost use Rattle.std.specs.Prelude.{◌≡◌, ◌++◌, ◌+◌, IfOk, OnOk};
ghost use Rattle.hv_init_layout.specs.Ends as spec;
ghost use Rattle.hv_init_layout.specs.Tracked.{flag_at};

use crate::tracked::Tracked;
use hv_decls::StaticPath;
use hv_flow_pass::Range;
use hv_flow_plan::FlowOp;
use hv_init_leaves::{Leaves, Sizes};
use hv_items::Items;
use hv_rules::FlowEvent;
use std::alloc::{AllocError as NoMemory, Global};

pub(crate) fn sum(a: u32, b: u32) -> Result<u32, NoMemory>
    ensures { IfOk result (λ n. n ≡ a + b) }
{
    a.checked_add(b).ok_or(NoMemory)
}

fn push_ends(positions: &mut Items<u32>, range: Range) -> Result<(), NoMemory>
    ensures { OnOk result (positions.new ≡ positions.old ++ spec.ends range) }
{
    let end = sum(range.from, range.count)?;
    positions.push(range.from)?;
    positions.push(end)
}

fn push_path(
    positions: &mut Items<u32>,
    sizes: &Sizes,
    leaves: &Leaves,
    tracked: &Tracked,
    path: &StaticPath,
) -> Result<(), NoMemory>
    ensures { OnOk result (positions.new ≡ positions.old ++ spec.path_ends sizes.now leaves.now (flag_at tracked.now) path.now) }
{
    if !tracked.is_tracked(path.root) {
        return Ok(());
    }
    let local = tracked.before(path.root);
    let range = leaves.range(sizes, local, path.steps.as_slice())?;
    push_ends(positions, range)
}

fn push_event(
    positions: &mut Items<u32>,
    sizes: &Sizes,
    leaves: &Leaves,
    tracked: &Tracked,
    event: &FlowEvent,
) -> Result<(), NoMemory>
    ensures { OnOk result (positions.new ≡ positions.old ++ spec.event_ends sizes.now leaves.now (flag_at tracked.now) event.now) }
{
    match event {
        FlowEvent::Init(path)
        | FlowEvent::Use(path)
        | FlowEvent::Move(path)
        | FlowEvent::OpenRead(path)
        | FlowEvent::OpenWrite(path)
        | FlowEvent::OpenSet(path) => push_path(positions, sizes, leaves, tracked, path),
        _ => Ok(()),
    }
}

fn push_word(
    positions: &mut Items<u32>,
    sizes: &Sizes,
    leaves: &Leaves,
    tracked: &Tracked,
    word: &FlowOp,
) -> Result<(), NoMemory>
    ensures { OnOk result (positions.new ≡ positions.old ++ spec.word_ends sizes.now leaves.now (flag_at tracked.now) word.now) }
{
    match word {
        FlowOp::Do(event, _) | FlowOp::Stop(event, _) => {
            push_event(positions, sizes, leaves, tracked, event)
        }
        FlowOp::Skip | FlowOp::Then | FlowOp::Either | FlowOp::Loop => Ok(()),
    }
}

fn push_plan(
    positions: &mut Items<u32>,
    sizes: &Sizes,
    leaves: &Leaves,
    tracked: &Tracked,
    plan: &[FlowOp],
) -> Result<(), NoMemory>
    ensures { OnOk result (positions.new ≡ positions.old ++ spec.plan_ends sizes.now leaves.now (flag_at tracked.now) plan.now) }
{
    for word in plan {
        push_word(positions, sizes, leaves, tracked, word)?;
    }
    Ok(())
}

fn push_locals(
    positions: &mut Items<u32>,
    sizes: &Sizes,
    leaves: &Leaves,
    count: u32,
) -> Result<(), NoMemory>
    ensures { OnOk result (positions.new ≡ positions.old ++ spec.local_ends sizes.now leaves.now count) }
{
    for local in 0..count {
        let range = leaves.range(sizes, local, &[])?;
        push_ends(positions, range)?;
    }
    Ok(())
}

/// Those of so many locals that have cells, of what is behind them, and of a plan.
pub fn all_ends(
    alloc: Global,
    sizes: &Sizes,
    leaves: &Leaves,
    tracked: &Tracked,
    locals: u32,
    plan: &[FlowOp],
) -> Result<Items<u32>, NoMemory>
    ensures { IfOk result (λ positions. positions ≡ spec.all_ends sizes.now leaves.now (flag_at tracked.now) locals plan.now) }
{
    let mut positions = Items::new(alloc);
    let count = sum(locals, 1)?;
    push_locals(&mut positions, sizes, leaves, count)?;
    push_plan(&mut positions, sizes, leaves, tracked, plan)?;
    Ok(positions)
}
