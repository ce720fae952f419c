// The plans of expressions.
ghost use Rattle.std.specs.Prelude.{◌≡◌, ◌++◌, ◌∷◌, [], IfOk, OnOk};
ghost use Rattle.hv_tree.specs.Core.{core_of};
ghost use Rattle.hv_rules.specs.declared.event.FlowEvent.TheVariants as event;
ghost use Rattle.hv_decls.specs.Locals.{number_in};
ghost use Rattle.hv_rules.specs.Events as events;
ghost use Rattle.hv_flow_plan.specs.declared.plan.FlowOp.TheVariants as op;
ghost use Rattle.hv_flow_plan.specs.declared.doing.Doing.TheVariants as doing;
ghost use Rattle.hv_flow_plan.specs.Scopes.{tree_in, locals_in, callee_by};
ghost use Rattle.hv_flow_plan.specs.Plans as plans;

use crate::doing::{Doing, Way, done, given, is_short, lent, opens};
use crate::paths::{Callee, called_place, next_conv, static_steps};
use crate::plan::FlowOp;
use crate::scope::{Scope, find};
use hv_decls::StaticPath;
use hv_items::Items;
use hv_rules::FlowEvent;
use hv_scope::value_type;
use hv_tree::{Arg, Call, Conv, Expr, ExprKind, Name, Operator, Place, PlaceExpr, Step};
use std::alloc::{AllocError as NoMemory, Global};

/// What is done with the place, where its root is a local.
pub fn push_root<'s, 't>(
    alloc: Global,
    scope: &Scope<'s, 't>,
    plan: &mut Items<FlowOp>,
    doing: Doing,
    root: &Name,
    steps: &[Step],
) -> Result<(), NoMemory>
    ensures { OnOk result (plan.new ≡ plan.old ++ plans.plan_root (tree_in scope.now) (locals_in scope.now) doing root.now steps.now) }
{
    let Some((number, known)) = find(scope, root) else {
        return plan.push(FlowOp::Skip);
    };
    let steps = static_steps(alloc, scope.declared, value_type(&known), steps)?;
    let Ok(root_number) = u32::try_from(number) else {
        return Err(NoMemory);
    };
    let path = StaticPath {
        root: root_number,
        steps,
    };
    plan.push(FlowOp::Do(done(doing, path), root.place))
}

/// `await handle`: the event `Await` at the place `at`, and none where no local has the name.
pub fn push_await<'s, 't>(
    scope: &Scope<'s, 't>,
    plan: &mut Items<FlowOp>,
    handle: &Name,
    at: Place,
) -> Result<(), NoMemory>
    ensures { OnOk result (plan.new ≡ plan.old ++ plans.plan_handle (tree_in scope.now) (locals_in scope.now) event.Await handle.now at) }
{
    let Some((number, _)) = find(scope, handle) else {
        return plan.push(FlowOp::Skip);
    };
    let Ok(number) = u32::try_from(number) else {
        return Err(NoMemory);
    };
    plan.push(FlowOp::Do(FlowEvent::Await(number), at))
}

fn push_captured<'s, 't>(
    alloc: Global,
    scope: &Scope<'s, 't>,
    plan: &mut Items<FlowOp>,
    captures: &[Name],
) -> Result<(), NoMemory>
    ensures { OnOk result (plan.new ≡ plan.old ++ plans.plan_captured (tree_in scope.now) (locals_in scope.now) captures.now) }
{
    for name in captures {
        plan.push(FlowOp::Then)?;
        push_root(alloc, scope, plan, Doing::Use, name, &[])?;
    }
    plan.push(FlowOp::Skip)
}

#[tactic(auto, using(crate::proofs::ExprPlans::closes_more))]
fn push_closes(plan: &mut Items<FlowOp>, count: usize, at: Place) -> Result<(), NoMemory>
    ensures { OnOk result (plan.new ≡ plan.old ++ plans.closes count at) }
{
    let mut left = count;
    while left > 0 {
        plan.push(FlowOp::Do(FlowEvent::Close, at))?;
        left -= 1;
    }
    Ok(())
}

fn one_if(stays: bool) -> usize
    ensures { result ≡ plans.count_open stays }
{
    if stays { 1 } else { 0 }
}

/// Whether the expression is a place whose root is a local.
#[tactic(auto, using(crate::proofs::ExprPlans::place_opened, crate::proofs::ExprPlans::place_path), unfolding(crate::proofs::ExprPlans::place_by))]
fn is_place<'s, 't>(scope: &Scope<'s, 't>, x: &Expr) -> bool
    ensures { result ≡ events.is_place (tree_in scope.now) (locals_in scope.now) (core_of x.now) }
{
    match &x.kind {
        ExprKind::Path(place) => is_local(scope, &place.root),
        _ => false,
    }
}

fn is_local<'s, 't>(scope: &Scope<'s, 't>, name: &Name) -> bool
    ensures { result ≡ events.is_local (tree_in scope.now) (locals_in scope.now) (number_in (locals_in scope.now) name.now.text) }
{
    match find(scope, name) {
        Some(_) => true,
        None => false,
    }
}

/// The events of an expression from left to right. A place is treated as `doing` says.
#[cycle(exprs)]
#[tactic(auto, using(crate::proofs::ExprPlans::expr_int, crate::proofs::ExprPlans::expr_bool, crate::proofs::ExprPlans::expr_path, crate::proofs::ExprPlans::expr_call, crate::proofs::ExprPlans::expr_await, crate::proofs::ExprPlans::expr_array_lit, crate::proofs::ExprPlans::expr_filled, crate::proofs::ExprPlans::expr_count, crate::proofs::ExprPlans::expr_lambda, crate::proofs::ExprPlans::expr_prefix, crate::proofs::ExprPlans::expr_chain))]
pub fn push_expr<'s, 't>(
    alloc: Global,
    scope: &Scope<'s, 't>,
    plan: &mut Items<FlowOp>,
    doing: Doing,
    x: &Expr,
) -> Result<(), NoMemory>
    ensures { OnOk result (plan.new ≡ plan.old ++ plans.plan_expr (tree_in scope.now) (locals_in scope.now) doing x.now) }
{
    match &x.kind {
        ExprKind::Int(_) => plan.push(FlowOp::Skip),
        ExprKind::Bool(_) => plan.push(FlowOp::Skip),
        ExprKind::Path(place) => push_place(alloc, scope, plan, doing, place),
        ExprKind::Call(call) => push_call(alloc, scope, plan, Way::Calling, call),
        ExprKind::Await(handle) => push_await(scope, plan, handle, x.place),
        ExprKind::ArrayLit(parts) => push_parts(alloc, scope, plan, parts.as_slice()),
        ExprKind::Filled(len, value) => {
            plan.push(FlowOp::Then)?;
            push_expr(alloc, scope, plan, Doing::Use, len.get())?;
            push_expr(alloc, scope, plan, Doing::Use, value.get())
        }
        ExprKind::Count(place) => push_place(alloc, scope, plan, Doing::Use, place),
        ExprKind::Lambda(captures, _, _, _) => {
            push_captured(alloc, scope, plan, captures.as_slice())
        }
        ExprKind::Prefix(_, operand) => push_expr(alloc, scope, plan, Doing::Use, operand.get()),
        ExprKind::Chain(first, links) => {
            plan.push(FlowOp::Then)?;
            push_expr(alloc, scope, plan, Doing::Use, first.get())?;
            push_links(alloc, scope, plan, links.as_slice())
        }
    }
}

#[cycle(exprs)]
fn push_parts<'s, 't>(
    alloc: Global,
    scope: &Scope<'s, 't>,
    plan: &mut Items<FlowOp>,
    parts: &[Expr],
) -> Result<(), NoMemory>
    ensures { OnOk result (plan.new ≡ plan.old ++ plans.plan_parts (tree_in scope.now) (locals_in scope.now) parts.now) }
{
    for part in parts {
        plan.push(FlowOp::Then)?;
        push_expr(alloc, scope, plan, Doing::Use, part)?;
    }
    plan.push(FlowOp::Skip)
}

#[cycle(exprs)]
fn push_links<'s, 't>(
    alloc: Global,
    scope: &Scope<'s, 't>,
    plan: &mut Items<FlowOp>,
    links: &[(Operator, Place, Expr)],
) -> Result<(), NoMemory>
    ensures { OnOk result (plan.new ≡ plan.old ++ plans.plan_links (tree_in scope.now) (locals_in scope.now) links.now) }
{
    for (operator, _, operand) in links {
        push_link(alloc, scope, plan, *operator, operand)?;
    }
    plan.push(FlowOp::Skip)
}

// An operand that `&&` or `||` may leave out.
#[cycle(exprs)]
fn push_link<'s, 't>(
    alloc: Global,
    scope: &Scope<'s, 't>,
    plan: &mut Items<FlowOp>,
    operator: Operator,
    operand: &Expr,
) -> Result<(), NoMemory>
    ensures { OnOk result (plan.new ≡ plan.old ++ (plans.stop_before (events.is_short operator) ++ (op.Then ∷ plans.plan_expr (tree_in scope.now) (locals_in scope.now) doing.Use operand.now))) }
{
    if is_short(operator) {
        plan.push(FlowOp::Either)?;
        plan.push(FlowOp::Skip)?;
    }
    plan.push(FlowOp::Then)?;
    push_expr(alloc, scope, plan, Doing::Use, operand)
}

#[cycle(exprs)]
fn push_indices<'s, 't>(
    alloc: Global,
    scope: &Scope<'s, 't>,
    plan: &mut Items<FlowOp>,
    steps: &[Step],
) -> Result<(), NoMemory>
    ensures { OnOk result (plan.new ≡ plan.old ++ plans.plan_indices (tree_in scope.now) (locals_in scope.now) steps.now) }
{
    for step in steps {
        push_index(alloc, scope, plan, step)?;
    }
    plan.push(FlowOp::Skip)
}

#[cycle(exprs)]
#[tactic(auto, using(crate::proofs::ExprPlans::index_field, crate::proofs::ExprPlans::index_index))]
fn push_index<'s, 't>(
    alloc: Global,
    scope: &Scope<'s, 't>,
    plan: &mut Items<FlowOp>,
    step: &Step,
) -> Result<(), NoMemory>
    ensures { OnOk result (plan.new ≡ plan.old ++ plans.plan_index (tree_in scope.now) (locals_in scope.now) step.now) }
{
    match step {
        Step::Field(_) => Ok(()),
        Step::Index(_, index) => {
            plan.push(FlowOp::Then)?;
            push_expr(alloc, scope, plan, Doing::Use, index)
        }
    }
}

/// The events of the indices in order, and then, at the root's name, what is done with the place.
#[cycle(exprs)]
pub fn push_place<'s, 't>(
    alloc: Global,
    scope: &Scope<'s, 't>,
    plan: &mut Items<FlowOp>,
    doing: Doing,
    place: &PlaceExpr,
) -> Result<(), NoMemory>
    ensures { OnOk result (plan.new ≡ plan.old ++ plans.plan_place (tree_in scope.now) (locals_in scope.now) doing place.now) }
{
    plan.push(FlowOp::Then)?;
    push_indices(alloc, scope, plan, place.steps.as_slice())?;
    push_root(
        alloc,
        scope,
        plan,
        doing,
        &place.root,
        place.steps.as_slice(),
    )
}

/// The callee is used, then each argument is passed. The accesses of arguments close at the place of the `(`.
#[cycle(exprs)]
#[tactic(auto, using(crate::proofs::ExprPlans::call_opened))]
pub fn push_call<'s, 't>(
    alloc: Global,
    scope: &Scope<'s, 't>,
    plan: &mut Items<FlowOp>,
    way: Way,
    call: &Call,
) -> Result<(), NoMemory>
    ensures { OnOk result (plan.new ≡ plan.old ++ plans.plan_call (tree_in scope.now) (locals_in scope.now) way call.now) }
{
    plan.push(FlowOp::Then)?;
    push_place(alloc, scope, plan, Doing::Use, &call.callee)?;
    let callee = called_place(scope, &call.callee);
    push_args(
        alloc,
        scope,
        plan,
        way,
        call.paren,
        callee,
        call.args.as_slice(),
    )
}

#[cycle(exprs)]
fn push_args<'s, 't>(
    alloc: Global,
    scope: &Scope<'s, 't>,
    plan: &mut Items<FlowOp>,
    way: Way,
    at: Place,
    callee: Callee<'t>,
    args: &[Arg],
) -> Result<(), NoMemory>
    ensures { OnOk result (plan.new ≡ plan.old ++ plans.plan_args (tree_in scope.now) (locals_in scope.now) way at (callee_by callee.entry) args.now) }
{
    let mut callee = callee;
    let mut unclosed = 0usize;
    for arg in args {
        let (conv, others) = next_conv(callee);
        unclosed += one_if(push_arg(alloc, scope, plan, way, at, conv, arg)?);
        callee = others;
    }
    plan.push(FlowOp::Skip)?;
    push_closes(plan, unclosed, at)
}

// An argument, and whether it has an access that closes behind the last one.
#[cycle(exprs)]
fn push_arg<'s, 't>(
    alloc: Global,
    scope: &Scope<'s, 't>,
    plan: &mut Items<FlowOp>,
    way: Way,
    at: Place,
    conv: Option<Conv>,
    arg: &Arg,
) -> Result<bool, NoMemory>
    ensures plan { OnOk result (plan.new ≡ plan.old ++ (op.Then ∷ (plans.plan_arg (tree_in scope.now) (locals_in scope.now) way conv arg.now ++ plans.close_behind way (plans.arg_opens (tree_in scope.now) (locals_in scope.now) way conv arg.now) at))) }
    ensures stays { IfOk result (λ b. b ≡ plans.stays_open way (plans.arg_opens (tree_in scope.now) (locals_in scope.now) way conv arg.now)) }
{
    plan.push(FlowOp::Then)?;
    if !push_given(alloc, scope, plan, way, conv, arg)? {
        return Ok(false);
    }
    plan.push(FlowOp::Then)?;
    match way {
        Way::Calling => Ok(true),
        Way::Spawning => {
            plan.push(FlowOp::Do(FlowEvent::Close, at))?;
            Ok(false)
        }
    }
}

// What is done with an argument, and whether that opens an access.
#[cycle(exprs)]
#[tactic(auto, using(crate::proofs::ExprPlans::arg_value, crate::proofs::ExprPlans::arg_ref, crate::proofs::ExprPlans::opens_value, crate::proofs::ExprPlans::opens_ref))]
fn push_given<'s, 't>(
    alloc: Global,
    scope: &Scope<'s, 't>,
    plan: &mut Items<FlowOp>,
    way: Way,
    conv: Option<Conv>,
    arg: &Arg,
) -> Result<bool, NoMemory>
    ensures plan { OnOk result (plan.new ≡ plan.old ++ plans.plan_arg (tree_in scope.now) (locals_in scope.now) way conv arg.now) }
    ensures opens { IfOk result (λ b. b ≡ plans.arg_opens (tree_in scope.now) (locals_in scope.now) way conv arg.now) }
{
    match arg {
        Arg::Value(x) => {
            push_expr(alloc, scope, plan, given(way, conv), x)?;
            Ok(opens(way, conv) && is_place(scope, x))
        }
        Arg::Ref(_, place) => {
            push_place(alloc, scope, plan, lent(conv), place)?;
            Ok(is_local(scope, &place.root))
        }
    }
}
