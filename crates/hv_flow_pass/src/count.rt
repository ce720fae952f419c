// How many cells a plan speaks of.
ghost use Rattle.std.specs.Prelude.{◌≡◌, ◌+◌};
ghost use Rattle.hv_flow_pass.specs.Passes as spec;

use crate::act::{Act, Range};
use crate::plan::PassOp;

fn range_end(range: Range) -> usize
    ensures { result ≡ range.from + range.count }
{
    range.from as usize + range.count as usize
}

fn act_end(act: Act) -> usize
    ensures { result ≡ spec.act_end act }
{
    match act {
        Act::Set(range, _) | Act::Refuse(range, _, _) => range_end(range),
    }
}

fn acts_end(most: usize, acts: &[Act]) -> usize
    ensures { result ≡ spec.acts_end most acts.now }
{
    let mut most = most;
    for act in acts {
        most = most.max(act_end(*act));
    }
    most
}

fn op_end(most: usize, op: &PassOp) -> usize
    ensures { result ≡ spec.op_end most op.now }
{
    match op {
        PassOp::Do(acts) | PassOp::Stop(acts) => acts_end(most, acts.as_slice()),
        PassOp::Skip | PassOp::Then | PassOp::Either | PassOp::Loop => most,
    }
}

/// The end of the last range.
pub fn count_cells(plan: &[PassOp]) -> usize
    ensures { result ≡ spec.plan_end 0 plan.now }
{
    let mut most = 0;
    for op in plan {
        most = op_end(most, op);
    }
    most
}
