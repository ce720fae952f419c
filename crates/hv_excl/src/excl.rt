// The first violation of a body, and of a program.
ghost use Rattle.hv_tree.specs.Core.{Core, core_tree};
ghost use Rattle.std.specs.Prelude.{IfOk};
ghost use Rattle.hv_tree.specs.Earlier.{IsFirst};
ghost use Rattle.hv_rules.specs.Accepted.{AccessPhase, IsViolatedInPhase};
ghost use Rattle.hv_flow_plan.specs.Planned.{planned_by};
ghost use Rattle.hv_excl.specs.Violations as spec;

use crate::judge::judge;
use hv_flow_pass::first_refusal;
use hv_flow_plan::{Planned, plans};
use hv_tree::{Refusal, Tree, earlier};
use std::alloc::{AllocError as NoMemory, Global};

fn body_refusal(alloc: Global, planned: &Planned<'_>) -> Result<Option<Refusal>, NoMemory>
    ensures first { IfOk result (λ first. (tree : Core) → spec.IsPlanned tree planned.now → IsFirst (spec.IsViolatedBy tree (planned_by planned.now).0) first) }
{
    let acts = judge(alloc, planned.plan.as_slice())?;
    let first = first_refusal(alloc, acts.as_slice())?;
    Ok(first)
}

fn first_among(alloc: Global, all: &[Planned<'_>]) -> Result<Option<Refusal>, NoMemory>
    ensures first { IfOk result (λ first. (tree : Core) → spec.ArePlanned tree all.now → IsFirst (spec.IsViolatedAmong tree all.now) first) }
{
    let mut first = None;
    for planned in all {
        let other = body_refusal(alloc, planned)?;
        first = earlier(first, other);
    }
    Ok(first)
}

/// The first violation of the rules on accesses: the one with the least place, at one place the one with
/// the lesser rule. It takes time in proportion to the events times the accesses that are open at them.
pub fn excl_refusal(alloc: Global, tree: &Tree) -> Result<Option<Refusal>, NoMemory>
    ensures first { IfOk result (λ first. IsFirst (IsViolatedInPhase AccessPhase (core_tree tree.now)) first) }
{
    let all = plans(alloc, tree)?;
    let first = first_among(alloc, all.as_slice())?;
    Ok(first)
}
