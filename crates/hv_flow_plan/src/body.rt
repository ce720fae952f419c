// The plan of a body, and the plans of all bodies of a program.
ghost use Rattle.std.specs.Prelude.{◌≡◌, ◌++◌, ◌+◌, map, length, IfOk, OnOk};
ghost use Rattle.hv_tree.specs.Core.{core_tree};
ghost use Rattle.hv_decls.specs.Locals.{entry_locals};
ghost use Rattle.hv_rules.specs.Events as events;
ghost use Rattle.hv_decls.specs.Sites as sites;
ghost use Rattle.hv_scope.specs.Bodies.{body_by};
ghost use Rattle.hv_scope.specs.Known.{local_by, kind_of};
ghost use Rattle.hv_flow_plan.specs.Spelling.{plan_of, plan_of_body};
ghost use Rattle.hv_flow_plan.specs.Scopes.{tree_in, locals_in};
ghost use Rattle.hv_flow_plan.specs.BodyPlans.{body_plan, stmts_plan};
ghost use Rattle.hv_flow_plan.specs.Planned.{all_planned, planned, planned_by};

use crate::plan::FlowOp;
use crate::scope::Scope;
use crate::stmts::{after, push_declared, push_end, push_stmts};
use hv_items::Items;
use hv_rules::FlowEvent;
use hv_scope::{Body, Declared, Kind, Known, bodies_of, body_locals, entry_of};
use hv_tree::{Block, Conv, Tree};
use std::alloc::{AllocError as NoMemory, Global};

/// A body with its plan.
#[derive(Drop)]
pub struct Planned<'t> {
    pub body: Body<'t>,
    pub plan: Items<FlowOp>,
}

fn push_entry<'t>(
    alloc: Global,
    plan: &mut Items<FlowOp>,
    next: &mut u32,
    known: &Known<'t>,
) -> Result<(), NoMemory>
    ensures plan { OnOk result (plan.new ≡ plan.old ++ plan_of (events.entry_event next.old (kind_of known.now.kind) known.now.name.now)) }
    ensures next { OnOk result (next.new ≡ next.old + 1) }
{
    match known.kind {
        Kind::Passed(Conv::Set) => {
            plan.push(FlowOp::Do(FlowEvent::Declare(*next), known.name.place))?;
            *next = after(*next)?;
            Ok(())
        }
        _ => push_declared(alloc, plan, next, known.name),
    }
}

fn push_entries<'t>(
    alloc: Global,
    plan: &mut Items<FlowOp>,
    next: &mut u32,
    entry: &[Known<'t>],
) -> Result<(), NoMemory>
    ensures plan { OnOk result (plan.new ≡ plan.old ++ plan_of (events.entry_events next.old (map local_by entry.now))) }
    ensures next { OnOk result (next.new ≡ next.old + length entry.now) }
{
    for known in entry {
        plan.push(FlowOp::Then)?;
        push_entry(alloc, plan, next, known)?;
    }
    plan.push(FlowOp::Skip)
}

// What a body does behind its captures and parameters.
fn push_rest<'s, 't>(
    alloc: Global,
    scope: &Scope<'s, 't>,
    plan: &mut Items<FlowOp>,
    first: u32,
    block: &Block,
) -> Result<(), NoMemory>
    ensures { OnOk result (plan.new ≡ plan.old ++ stmts_plan (tree_in scope.now) (locals_in scope.now) first block.now) }
{
    let mut next = first;
    plan.push(FlowOp::Then)?;
    push_stmts(alloc, scope, plan, &mut next, block.stmts.as_slice())?;
    push_end(plan, first, block.end)
}

// The plan of a body, with its entry, which stands at the `}`.
fn make_plan<'s, 't>(
    alloc: Global,
    scope: &Scope<'s, 't>,
    entry: &[Known<'t>],
    block: &Block,
) -> Result<Items<FlowOp>, NoMemory>
    ensures { IfOk result (λ p. p ≡ body_plan (tree_in scope.now) (map local_by entry.now) (locals_in scope.now) block.now) }
{
    let mut plan = Items::new(alloc);
    let mut next = 0u32;
    plan.push(FlowOp::Then)?;
    plan.push(FlowOp::Do(FlowEvent::Entry, block.end))?;
    plan.push(FlowOp::Then)?;
    push_entries(alloc, &mut plan, &mut next, entry)?;
    push_rest(alloc, scope, &mut plan, next, block)?;
    Ok(plan)
}

/// The plan of a body of this program.
#[tactic(auto, using(crate::proofs::BodyLemmas::body_same))]
pub fn plan_of_body<'t>(
    alloc: Global,
    declared: &Declared<'t>,
    body: &Body<'t>,
) -> Result<Items<FlowOp>, NoMemory>
    ensures { IfOk result (λ p. p ≡ plan_of_body (core_tree declared.now) (body_by body.now)) }
{
    let entry = entry_of(alloc, body.captures.as_slice(), body.params)?;
    let locals = body_locals(alloc, body)?;
    let scope = Scope {
        declared,
        locals: &locals,
    };
    make_plan(alloc, &scope, entry.as_slice(), body.block)
}

fn plan_all<'t>(
    alloc: Global,
    declared: &Declared<'t>,
    bodies: Vec<Body<'t>>,
) -> Result<Vec<Planned<'t>>, NoMemory>
    ensures { IfOk result (λ v. map planned_by v.items ≡ map (planned (core_tree declared.now)) (map body_by bodies.entry.items)) }
{
    let mut all = Vec::new(alloc);
    for body in bodies {
        let plan = plan_of_body(alloc, declared, &body)?;
        all.push(Planned { body, plan })?;
    }
    Ok(all)
}

/// All bodies of a program with their plans, in the order of the opening braces. It takes time about linear in the program.
pub fn plans<'t>(alloc: Global, tree: &'t Tree) -> Result<Vec<Planned<'t>>, NoMemory>
    ensures { IfOk result (λ v. map planned_by v.items ≡ all_planned (core_tree tree.now)) }
{
    let declared = Declared::new(alloc, tree)?;
    let bodies = bodies_of(alloc, tree)?;
    plan_all(alloc, &declared, bodies)
}
