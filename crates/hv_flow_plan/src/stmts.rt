// The plans of statements. `next` is how many locals of the body are declared before.
ghost use Rattle.std.specs.Prelude.{◌≡◌, ◌++◌, ◌∷◌, [], ◌+◌, IfOk, OnOk};
ghost use Rattle.hv_flow_plan.specs.Scopes.{tree_in, locals_in};
ghost use Rattle.hv_rules.specs.declared.event.FlowEvent.TheVariants as event;
ghost use Rattle.hv_flow_plan.specs.declared.plan.FlowOp.TheVariants as op;
ghost use Rattle.hv_flow_plan.specs.StmtPlans as plans;

use crate::doing::{Doing, Way};
use crate::exprs::{push_await, push_call, push_expr, push_place};
use crate::plan::FlowOp;
use crate::scope::Scope;
use hv_decls::StaticPath;
use hv_items::Items;
use hv_rules::FlowEvent;
use hv_tree::{Block, Branch, Call, Expr, Name, Place, PlaceExpr, Stmt, StmtKind};
use std::alloc::{AllocError as NoMemory, Global};

/// The number of the next local; behind the greatest `u32` it is want of memory.
pub fn after(next: u32) -> Result<u32, NoMemory>
    ensures { IfOk result (λ n. n ≡ next + 1) }
{
    next.checked_add(1).ok_or(NoMemory)
}

// Declare and Init of the next local.
/// Both stand at the name, and cover all of the local.
pub fn push_declared(
    alloc: Global,
    plan: &mut Items<FlowOp>,
    next: &mut u32,
    name: &Name,
) -> Result<(), NoMemory>
    ensures plan { OnOk result (plan.new ≡ plan.old ++ plans.declared_plan next.old name.now) }
    ensures next { OnOk result (next.new ≡ next.old + 1) }
{
    let number = *next;
    let whole = StaticPath {
        root: number,
        steps: Items::new(alloc),
    };
    plan.push(FlowOp::Then)?;
    plan.push(FlowOp::Do(FlowEvent::Declare(number), name.place))?;
    plan.push(FlowOp::Do(FlowEvent::Init(whole), name.place))?;
    *next = after(number)?;
    Ok(())
}

// The end of the block whose first local has this number.
/// The event stands at `end`, where the block's `}` is.
pub fn push_end(plan: &mut Items<FlowOp>, first: u32, end: Place) -> Result<(), NoMemory>
    ensures { OnOk result (plan.new ≡ plan.old ++ op.Do (event.ScopeEnd first) end ∷ []) }
{
    plan.push(FlowOp::Do(FlowEvent::ScopeEnd(first), end))
}

fn push_var<'s, 't>(
    alloc: Global,
    scope: &Scope<'s, 't>,
    plan: &mut Items<FlowOp>,
    next: &mut u32,
    name: &Name,
    value: &Option<Expr>,
) -> Result<(), NoMemory>
    ensures plan { OnOk result (plan.new ≡ plan.old ++ plans.plan_var (tree_in scope.now) (locals_in scope.now) next.old name.now value.now) }
    ensures next { OnOk result (next.new ≡ next.old + 1) }
{
    match value {
        None => {
            plan.push(FlowOp::Do(FlowEvent::Declare(*next), name.place))?;
            *next = after(*next)?;
            Ok(())
        }
        Some(x) => {
            plan.push(FlowOp::Then)?;
            push_expr(alloc, scope, plan, Doing::Use, x)?;
            push_declared(alloc, plan, next, name)
        }
    }
}

fn push_let<'s, 't>(
    alloc: Global,
    scope: &Scope<'s, 't>,
    plan: &mut Items<FlowOp>,
    next: &mut u32,
    name: &Name,
    value: &Expr,
) -> Result<(), NoMemory>
    ensures plan { OnOk result (plan.new ≡ plan.old ++ plans.plan_let (tree_in scope.now) (locals_in scope.now) next.old name.now value.now) }
    ensures next { OnOk result (next.new ≡ next.old + 1) }
{
    plan.push(FlowOp::Then)?;
    push_expr(alloc, scope, plan, Doing::Read, value)?;
    push_declared(alloc, plan, next, name)
}

fn push_inout<'s, 't>(
    alloc: Global,
    scope: &Scope<'s, 't>,
    plan: &mut Items<FlowOp>,
    next: &mut u32,
    name: &Name,
    place: &PlaceExpr,
) -> Result<(), NoMemory>
    ensures plan { OnOk result (plan.new ≡ plan.old ++ plans.plan_inout (tree_in scope.now) (locals_in scope.now) next.old name.now place.now) }
    ensures next { OnOk result (next.new ≡ next.old + 1) }
{
    plan.push(FlowOp::Then)?;
    push_place(alloc, scope, plan, Doing::Write, place)?;
    push_declared(alloc, plan, next, name)
}

fn push_assign<'s, 't>(
    alloc: Global,
    scope: &Scope<'s, 't>,
    plan: &mut Items<FlowOp>,
    place: &PlaceExpr,
    value: &Expr,
) -> Result<(), NoMemory>
    ensures { OnOk result (plan.new ≡ plan.old ++ plans.plan_assign (tree_in scope.now) (locals_in scope.now) place.now value.now) }
{
    plan.push(FlowOp::Then)?;
    push_expr(alloc, scope, plan, Doing::Use, value)?;
    push_place(alloc, scope, plan, Doing::Init, place)
}

fn push_return<'s, 't>(
    alloc: Global,
    scope: &Scope<'s, 't>,
    plan: &mut Items<FlowOp>,
    at: Place,
    value: &Option<Expr>,
) -> Result<(), NoMemory>
    ensures { OnOk result (plan.new ≡ plan.old ++ plans.plan_return (tree_in scope.now) (locals_in scope.now) at value.now) }
{
    if let Some(x) = value {
        plan.push(FlowOp::Then)?;
        push_expr(alloc, scope, plan, Doing::Use, x)?;
    }
    plan.push(FlowOp::Stop(FlowEvent::Return, at))
}

fn push_task<'s, 't>(
    alloc: Global,
    scope: &Scope<'s, 't>,
    plan: &mut Items<FlowOp>,
    next: &mut u32,
    spawn: Place,
    budget: &Expr,
    call: &Call,
) -> Result<(), NoMemory>
    ensures plan { OnOk result (plan.new ≡ plan.old ++ plans.plan_task (tree_in scope.now) (locals_in scope.now) next.old spawn budget.now call.now) }
    ensures next { OnOk result (next.new ≡ next.old + 1) }
{
    plan.push(FlowOp::Then)?;
    push_expr(alloc, scope, plan, Doing::Use, budget)?;
    plan.push(FlowOp::Then)?;
    push_call(alloc, scope, plan, Way::Spawning, call)?;
    plan.push(FlowOp::Do(FlowEvent::Spawn(*next), spawn))?;
    *next = after(*next)?;
    Ok(())
}

/// The events of a statement; `next` moves past the locals that it declares, in blocks too.
#[cycle(stmts)]
#[tactic(auto, using(crate::proofs::VariantPlans::stmt_var, crate::proofs::VariantPlans::stmt_let, crate::proofs::VariantPlans::stmt_inout, crate::proofs::VariantPlans::stmt_assign, crate::proofs::VariantPlans::stmt_if, crate::proofs::VariantPlans::stmt_while, crate::proofs::VariantPlans::stmt_return, crate::proofs::VariantPlans::stmt_print, crate::proofs::VariantPlans::stmt_task, crate::proofs::VariantPlans::stmt_await, crate::proofs::VariantPlans::stmt_call, crate::proofs::VariantPlans::stmt_block, crate::proofs::VariantPlans::count_var, crate::proofs::VariantPlans::count_let, crate::proofs::VariantPlans::count_inout, crate::proofs::VariantPlans::count_assign, crate::proofs::VariantPlans::count_if, crate::proofs::VariantPlans::count_while, crate::proofs::VariantPlans::count_return, crate::proofs::VariantPlans::count_print, crate::proofs::VariantPlans::count_task, crate::proofs::VariantPlans::count_await, crate::proofs::VariantPlans::count_call, crate::proofs::VariantPlans::count_block))]
pub fn push_stmt<'s, 't>(
    alloc: Global,
    scope: &Scope<'s, 't>,
    plan: &mut Items<FlowOp>,
    next: &mut u32,
    stmt: &Stmt,
) -> Result<(), NoMemory>
    ensures plan { OnOk result (plan.new ≡ plan.old ++ plans.plan_stmt (tree_in scope.now) (locals_in scope.now) next.old stmt.now) }
    ensures next { OnOk result (next.new ≡ next.old + plans.stmt_locals stmt.now) }
{
    match &stmt.kind {
        StmtKind::Var(name, _, value) => push_var(alloc, scope, plan, next, name, value),
        StmtKind::Let(name, _, value) => push_let(alloc, scope, plan, next, name, value),
        StmtKind::Inout(name, _, place) => push_inout(alloc, scope, plan, next, name, place),
        StmtKind::Assign(place, value) => push_assign(alloc, scope, plan, place, value),
        StmtKind::If(branches, otherwise) => {
            push_branches(alloc, scope, plan, next, branches.as_slice())?;
            push_else(alloc, scope, plan, next, otherwise)
        }
        // The test stands behind the turns once more, for the turn that isn't made.
        StmtKind::While(test, body) => {
            plan.push(FlowOp::Then)?;
            plan.push(FlowOp::Loop)?;
            plan.push(FlowOp::Then)?;
            push_expr(alloc, scope, plan, Doing::Use, test)?;
            push_block(alloc, scope, plan, next, body)?;
            push_expr(alloc, scope, plan, Doing::Use, test)
        }
        StmtKind::Return(value) => push_return(alloc, scope, plan, stmt.place, value),
        StmtKind::Print(value) => push_expr(alloc, scope, plan, Doing::Use, value),
        StmtKind::Task(_, _, spawn, budget, call) => {
            push_task(alloc, scope, plan, next, *spawn, budget, call)
        }
        StmtKind::Await(handle) => push_await(scope, plan, handle, stmt.place),
        StmtKind::Call(call) => push_call(alloc, scope, plan, Way::Calling, call),
        StmtKind::Block(block) => push_block(alloc, scope, plan, next, block),
    }
}

/// The events of statements, one after the other.
#[cycle(stmts)]
pub fn push_stmts<'s, 't>(
    alloc: Global,
    scope: &Scope<'s, 't>,
    plan: &mut Items<FlowOp>,
    next: &mut u32,
    stmts: &[Stmt],
) -> Result<(), NoMemory>
    ensures plan { OnOk result (plan.new ≡ plan.old ++ plans.plan_stmts (tree_in scope.now) (locals_in scope.now) next.old stmts.now) }
    ensures next { OnOk result (next.new ≡ next.old + plans.stmts_locals stmts.now) }
{
    for stmt in stmts {
        plan.push(FlowOp::Then)?;
        push_stmt(alloc, scope, plan, next, stmt)?;
    }
    plan.push(FlowOp::Skip)
}

#[cycle(stmts)]
#[tactic(auto, using(crate::proofs::StmtLemmas::block_plan, crate::proofs::StmtLemmas::block_counted))]
fn push_block<'s, 't>(
    alloc: Global,
    scope: &Scope<'s, 't>,
    plan: &mut Items<FlowOp>,
    next: &mut u32,
    block: &Block,
) -> Result<(), NoMemory>
    ensures plan { OnOk result (plan.new ≡ plan.old ++ plans.plan_block (tree_in scope.now) (locals_in scope.now) next.old block.now) }
    ensures next { OnOk result (next.new ≡ next.old + plans.block_locals block.now) }
{
    let first = *next;
    plan.push(FlowOp::Then)?;
    push_stmts(alloc, scope, plan, next, block.stmts.as_slice())?;
    push_end(plan, first, block.end)
}

// The tests with their blocks, each before what comes where the test fails.
#[cycle(stmts)]
fn push_branches<'s, 't>(
    alloc: Global,
    scope: &Scope<'s, 't>,
    plan: &mut Items<FlowOp>,
    next: &mut u32,
    branches: &[Branch],
) -> Result<(), NoMemory>
    ensures plan { OnOk result (plan.new ≡ plan.old ++ plans.plan_tests (tree_in scope.now) (locals_in scope.now) next.old branches.now) }
    ensures next { OnOk result (next.new ≡ next.old + plans.tests_locals branches.now) }
{
    for branch in branches {
        push_branch(alloc, scope, plan, next, branch)?;
    }
    Ok(())
}

#[cycle(stmts)]
fn push_branch<'s, 't>(
    alloc: Global,
    scope: &Scope<'s, 't>,
    plan: &mut Items<FlowOp>,
    next: &mut u32,
    branch: &Branch,
) -> Result<(), NoMemory>
    ensures plan { OnOk result (plan.new ≡ plan.old ++ plans.plan_branch (tree_in scope.now) (locals_in scope.now) next.old branch.now) }
    ensures next { OnOk result (next.new ≡ next.old + plans.branch_locals branch.now) }
{
    plan.push(FlowOp::Then)?;
    push_expr(alloc, scope, plan, Doing::Use, &branch.test)?;
    plan.push(FlowOp::Either)?;
    push_block(alloc, scope, plan, next, &branch.body)
}

#[cycle(stmts)]
fn push_else<'s, 't>(
    alloc: Global,
    scope: &Scope<'s, 't>,
    plan: &mut Items<FlowOp>,
    next: &mut u32,
    otherwise: &Option<Block>,
) -> Result<(), NoMemory>
    ensures plan { OnOk result (plan.new ≡ plan.old ++ plans.plan_else (tree_in scope.now) (locals_in scope.now) next.old otherwise.now) }
    ensures next { OnOk result (next.new ≡ next.old + plans.else_locals otherwise.now) }
{
    match otherwise {
        None => plan.push(FlowOp::Skip),
        Some(block) => push_block(alloc, scope, plan, next, block),
    }
}
