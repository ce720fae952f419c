// The plans of acts of a body.
ghost use Rattle.std.specs.Prelude.{◌≡◌, IfOk};
ghost use Rattle.hv_flow_ends.specs.Words.{word, words};
ghost use Rattle.hv_await.specs.Acts.{left_acts};
ghost use Rattle.hv_await.specs.Ops as spec;

use crate::acts::{again_acts, left_acts};
use hv_flow_ends::{End, ends_behind};
use hv_flow_pass::PassOp;
use hv_flow_plan::FlowOp;
use hv_items::Items;
use std::alloc::{AllocError as NoMemory, Global};

fn left_op(alloc: Global, op: &FlowOp, to_come: &[End]) -> Result<PassOp, NoMemory>
    ensures { IfOk result (λ o. o ≡ word left_acts op.now to_come.now) }
{
    Ok(match op {
        FlowOp::Skip => PassOp::Skip,
        FlowOp::Do(event, at) => PassOp::Do(left_acts(alloc, event, *at, to_come)?),
        FlowOp::Stop(event, at) => PassOp::Stop(left_acts(alloc, event, *at, to_come)?),
        FlowOp::Then => PassOp::Then,
        FlowOp::Either => PassOp::Either,
        FlowOp::Loop => PassOp::Loop,
    })
}

/// The plan of the acts that find handles that are left.
pub(crate) fn left_ops(
    alloc: Global,
    ops: &[FlowOp],
    ends: &[End],
) -> Result<Items<PassOp>, NoMemory>
    ensures { IfOk result (λ plan. plan ≡ words left_acts ops.now ends.now) }
{
    let mut plan = Items::new(alloc);
    let mut to_come = ends;
    for op in ops {
        plan.push(left_op(alloc, op, to_come)?)?;
        to_come = ends_behind(op, to_come);
    }
    Ok(plan)
}

fn again_op(alloc: Global, op: &FlowOp) -> Result<PassOp, NoMemory>
    ensures { IfOk result (λ o. o ≡ spec.again_op op.now) }
{
    Ok(match op {
        FlowOp::Skip => PassOp::Skip,
        FlowOp::Do(event, at) => PassOp::Do(again_acts(alloc, event, *at)?),
        FlowOp::Stop(event, at) => PassOp::Stop(again_acts(alloc, event, *at)?),
        FlowOp::Then => PassOp::Then,
        FlowOp::Either => PassOp::Either,
        FlowOp::Loop => PassOp::Loop,
    })
}

/// The plan of the acts that find handles that are awaited again.
pub(crate) fn again_ops(alloc: Global, ops: &[FlowOp]) -> Result<Items<PassOp>, NoMemory>
    ensures { IfOk result (λ plan. plan ≡ spec.again_ops ops.now) }
{
    let mut plan = Items::new(alloc);
    for op in ops {
        plan.push(again_op(alloc, op)?)?;
    }
    Ok(plan)
}
