// The first violation of a body, and of a program.
ghost use Rattle.std.specs.Prelude.{map, IfOk};
ghost use Rattle.hv_tree.specs.Core.{core_tree};
ghost use Rattle.hv_rules.specs.Accepted.{InitPhase, IsViolatedInPhase};
ghost use Rattle.hv_tree.specs.Earlier.{IsFirst};
ghost use Rattle.hv_scope.specs.Bodies.{body_by};
ghost use Rattle.hv_init_leaves.specs.Leaves.{AreSizesOf};
ghost use Rattle.hv_init_cells.specs.Law.{IsViolatedAmong, IsViolatedBy};

use crate::words::init_words;
use hv_flow_ends::{ends_of, without_entry};
use hv_flow_pass::first_refusal;
use hv_flow_plan::plan_of_body;
use hv_init_layout::Layout;
use hv_init_leaves::Sizes;
use hv_scope::{Body, Declared, bodies_of};
use hv_tree::{Refusal, Tree, earlier};
use std::alloc::{AllocError as NoMemory, Global};

fn body_refusal<'t>(
    alloc: Global,
    declared: &Declared<'t>,
    sizes: &Sizes,
    body: &Body<'t>,
) -> Result<Option<Refusal>, NoMemory>
    ensures { IfOk result (λ v. AreSizesOf (core_tree declared.now) sizes.now → IsFirst (IsViolatedBy (core_tree declared.now) (body_by body.now)) v) }
{
    let plan = plan_of_body(alloc, declared, body)?;
    let ends = ends_of(alloc, body)?;
    let layout = Layout::of(alloc, declared, sizes, body, plan.as_slice())?;
    let words = without_entry(plan.as_slice());
    let acts = init_words(alloc, &layout, words, ends.as_slice())?;
    let first = first_refusal(alloc, acts.as_slice())?;
    Ok(first)
}

fn first_among<'t>(
    alloc: Global,
    declared: &Declared<'t>,
    sizes: &Sizes,
    bodies: &[Body<'t>],
) -> Result<Option<Refusal>, NoMemory>
    ensures { IfOk result (λ v. AreSizesOf (core_tree declared.now) sizes.now → IsFirst (IsViolatedAmong (core_tree declared.now) (map body_by bodies.now)) v) }
{
    let mut first = None;
    for body in bodies {
        let other = body_refusal(alloc, declared, sizes, body)?;
        first = earlier(first, other);
    }
    Ok(first)
}

/// The first violation of the rules on initialisation: the one with the least place, at one place the
/// one with the lesser rule. It takes time in proportion to the program and to the cells that its events
/// name, at each end those of the locals that are written back, times how deep branches and loops nest.
/// A body's cells are as few as its locals and the ends of the ranges that occur in it.
pub fn init_refusal(alloc: Global, tree: &Tree) -> Result<Option<Refusal>, NoMemory>
    ensures first { IfOk result (λ v. IsFirst (IsViolatedInPhase InitPhase (core_tree tree.now)) v) }
{
    let declared = Declared::new(alloc, tree)?;
    let bodies = bodies_of(alloc, tree)?;
    let sizes = Sizes::of(alloc, &declared)?;
    let first = first_among(alloc, &declared, &sizes, bodies.as_slice())?;
    Ok(first)
}
