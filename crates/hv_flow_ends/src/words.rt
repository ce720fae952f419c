// The ends that are handed to the words of a plan.
ghost use Rattle.std.specs.Prelude.{◌≡◌, drop};
ghost use Rattle.hv_flow_ends.specs.Ends as ends;
ghost use Rattle.hv_flow_ends.specs.Words as spec;

use crate::span::End;
use hv_flow_plan::FlowOp;
use hv_rules::FlowEvent;

/// Whether a block or the body ends there.
pub fn is_end(event: &FlowEvent) -> bool
    ensures { result ≡ ends.is_end event.now }
{
    match event {
        FlowEvent::Return | FlowEvent::ScopeEnd(_) => true,
        _ => false,
    }
}

fn ends_after<'e>(event: &FlowEvent, to_come: &'e [End]) -> &'e [End]
    ensures { result.now ≡ spec.ends_after event.now to_come.now }
{
    if !is_end(event) {
        return to_come;
    }
    match to_come.split_first() {
        Some((_, rest)) => rest,
        None => to_come,
    }
}

/// The ends that are to come behind a word.
pub fn ends_behind<'e>(op: &FlowOp, to_come: &'e [End]) -> &'e [End]
    ensures { result.now ≡ spec.ends_behind op.now to_come.now }
{
    match op {
        FlowOp::Do(event, _) => ends_after(event, to_come),
        FlowOp::Stop(event, _) => ends_after(event, to_come),
        FlowOp::Skip | FlowOp::Then | FlowOp::Either | FlowOp::Loop => to_come,
    }
}

fn behind_first(ops: &[FlowOp]) -> &[FlowOp]
    ensures { result.now ≡ drop 1 ops.now }
{
    match ops.split_first() {
        Some((_, rest)) => rest,
        None => ops,
    }
}

/// The plan of a body's events without its entry, which is none of them.
#[tactic(auto, using(crate::proofs::Handed::two_behind))]
pub fn without_entry(plan: &[FlowOp]) -> &[FlowOp]
    ensures { result.now ≡ drop 2 plan.now }
{
    behind_first(behind_first(plan))
}
