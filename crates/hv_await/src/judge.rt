// The first violation of the rules on handles in a program.
ghost use Rattle.std.specs.Prelude.{◌≡◌, ◌++◌, List, map, IfOk, OnOk};
ghost use Rattle.hv_tree.specs.Core.{core_tree};
ghost use Rattle.hv_rules.specs.Accepted.{HandlePhase, IsViolatedInPhase};
ghost use Rattle.hv_tree.specs.Earlier.{IsFirst};
ghost use Rattle.hv_rules.specs.Flow.{Flow};
ghost use Rattle.hv_decls.specs.Locals.{listed};
ghost use Rattle.hv_flow_pass.specs.Plans.{plan_of};
ghost use Rattle.hv_flow_pass.specs.Refused.{IsRefused};
ghost use Rattle.hv_flow_pass.specs.declared.act.Act.{Act};
ghost use Rattle.hv_scope.specs.Bodies.{body_by};
ghost use Rattle.hv_await.specs.Found.{Adds, OfBodies, OfBody};
ghost use Rattle.hv_flow_ends.specs.Words.{words};
ghost use Rattle.hv_await.specs.Acts.{left_acts};
ghost use Rattle.hv_await.specs.Ops as spec;

use crate::changing::judge_changes;
use crate::ops::{again_ops, left_ops};
use hv_flow_ends::{End, ends_of, without_entry};
use hv_flow_pass::first_refusal;
use hv_flow_plan::{FlowOp, plan_of_body};
use hv_scope::{Body, Declared, bodies_of};
use hv_tree::{Refusal, Tree, first};
use std::alloc::{AllocError as NoMemory, Global};

fn first_left(alloc: Global, ops: &[FlowOp], ends: &[End]) -> Result<Option<Refusal>, NoMemory>
    ensures { IfOk result (λ first. (f : Flow (List Act)) → words left_acts ops.now ends.now ≡ plan_of f → IsFirst (IsRefused f) first) }
{
    let plan = left_ops(alloc, ops, ends)?;
    first_refusal(alloc, plan.as_slice())
}

fn first_again(alloc: Global, ops: &[FlowOp]) -> Result<Option<Refusal>, NoMemory>
    ensures { IfOk result (λ first. (f : Flow (List Act)) → spec.again_ops ops.now ≡ plan_of f → IsFirst (IsRefused f) first) }
{
    let plan = again_ops(alloc, ops)?;
    first_refusal(alloc, plan.as_slice())
}

fn push_first(found: &mut Vec<Refusal>, first: Option<Refusal>) -> Result<(), NoMemory>
    ensures { OnOk result (found.new.items ≡ found.old.items ++ listed first) }
{
    if let Some(refusal) = first {
        found.push(refusal)?;
    }
    Ok(())
}

fn judge_body<'t>(
    alloc: Global,
    declared: &Declared<'t>,
    body: &Body<'t>,
    found: &mut Vec<Refusal>,
) -> Result<(), NoMemory>
    ensures { OnOk result (Adds (OfBody (core_tree declared.now) (body_by body.now)) found.old.items found.new.items) }
{
    let plan = plan_of_body(alloc, declared, body)?;
    let ends = ends_of(alloc, body)?;
    let ops = without_entry(plan.as_slice());
    let left = first_left(alloc, ops, ends.as_slice())?;
    push_first(found, left)?;
    let again = first_again(alloc, ops)?;
    push_first(found, again)?;
    judge_changes(alloc, declared, body, found)
}

fn judge_bodies<'t>(
    alloc: Global,
    declared: &Declared<'t>,
    bodies: &[Body<'t>],
    found: &mut Vec<Refusal>,
) -> Result<(), NoMemory>
    ensures { OnOk result (Adds (OfBodies (core_tree declared.now) (map body_by bodies.now)) found.old.items found.new.items) }
{
    for body in bodies {
        judge_body(alloc, declared, body, found)?;
    }
    Ok(())
}

/// The first violation of the rules on handles. It takes time in proportion to the program and to the
/// handles that end at each return and each block's end, times how deep branches and loops nest.
pub fn await_refusal(alloc: Global, tree: &Tree) -> Result<Option<Refusal>, NoMemory>
    ensures first { IfOk result (λ v. IsFirst (IsViolatedInPhase HandlePhase (core_tree tree.now)) v) }
{
    let declared = Declared::new(alloc, tree)?;
    let bodies = bodies_of(alloc, tree)?;
    let mut found = Vec::new(alloc);
    judge_bodies(alloc, &declared, bodies.as_slice(), &mut found)?;
    Ok(first(found.as_slice()))
}
