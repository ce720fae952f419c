// What is wrong in a part of a body.
ghost use Rattle.std.specs.Prelude.{◌≡◌, ◌++◌, OnOk, IfOk, Some};
ghost use Rattle.std.specs.Option.{option_copied};
ghost use Rattle.hv_tree.specs.Core.{core_exprs, NoSteps};
ghost use Rattle.hv_decls.specs.Types.{BoolType, IntType};
ghost use Rattle.hv_type_rules.specs.Typing as typing;
ghost use Rattle.hv_scope.specs.Known.{typed};
ghost use Rattle.hv_type_synth.specs.Held.{known_by, option_base};
ghost use Rattle.hv_type_synth.specs.Here as here;
ghost use Rattle.hv_type_judge.specs.Judged as spec;
ghost use Rattle.hv_type_judge.specs.Seen as seen;

use crate::names::{
    check_awaited, check_captured, check_captures, check_changed, check_read, check_root,
};
use crate::positions::{
    check_base, check_chain, check_compared, check_elements, check_fields, check_indices,
    check_printed, check_type,
};
use crate::refuse::refuse_if;
use hv_tree::{Call, Expr, ExprKind, Name, Place, PlaceExpr, Refusal, Rule, Stmt, StmtKind, Ty};
use hv_type_synth::{
    Around, Base, Typed, is_struct_name, local_named, no_array, no_value, operand_type, or_nothing,
    other, place_type, root_type, signature_differs, signature_of, type_of,
};
use std::alloc::AllocError as NoMemory;

/// A place.
#[tactic(auto, using(crate::proofs::Parted::place_opened, hv_lemmas::proofs::Lists::two))]
pub fn judge_place<'t>(
    around: &Around<'_, 't>,
    found: &mut Vec<Refusal>,
    place: &'t PlaceExpr,
) -> Result<(), NoMemory>
    ensures { OnOk result (found.new.items ≡ found.old.items ++ seen.place_judged around.now place.now) }
{
    let ty = root_type(around, &place.root);
    check_indices(around, found, ty, place.steps.as_slice())?;
    check_fields(around, found, ty, place.steps.as_slice())
}

// An Int.
fn check_int<'t>(
    around: &Around<'_, 't>,
    found: &mut Vec<Refusal>,
    x: &'t Expr,
) -> Result<(), NoMemory>
    ensures { OnOk result (found.new.items ≡ found.old.items ++ seen.wrong around.now (Some IntType) x.now) }
{
    check_base(around, found, Some(Base::Int), x)
}

// The type of the first one.
fn first_type<'t>(around: &Around<'_, 't>, xs: &'t [Expr]) -> Result<Typed<'t>, NoMemory>
    ensures { IfOk result (λ t. known_by t ≡ typing.first_type (here.tree_in around.now) (here.visible_in around.now) (core_exprs xs.now)) }
{
    match xs.split_first() {
        Some((first, _)) => type_of(around, first),
        None => Ok(Typed::Unknown),
    }
}

fn judge_array<'t>(
    around: &Around<'_, 't>,
    found: &mut Vec<Refusal>,
    xs: &'t [Expr],
) -> Result<(), NoMemory>
    ensures { OnOk result (found.new.items ≡ found.old.items ++ seen.array_judged around.now xs.now) }
{
    let first = first_type(around, xs)?;
    check_elements(around, found, first, xs)
}

#[tactic(auto, using(hv_lemmas::proofs::Lists::two, crate::proofs::Roots::root_of))]
fn judge_count<'t>(
    around: &Around<'_, 't>,
    found: &mut Vec<Refusal>,
    place: &'t PlaceExpr,
    at: Place,
) -> Result<(), NoMemory>
    ensures { OnOk result (found.new.items ≡ found.old.items ++ seen.count_judged around.now place.now at) }
{
    refuse_if(found, no_array(place_type(around, place)), Rule::T1, at)?;
    check_root(around, found, &place.root)
}

#[tactic(auto, using(hv_lemmas::proofs::Lists::two))]
fn judge_filled<'t>(
    around: &Around<'_, 't>,
    found: &mut Vec<Refusal>,
    len: &'t Expr,
    value: &'t Expr,
) -> Result<(), NoMemory>
    ensures { OnOk result (found.new.items ≡ found.old.items ++ seen.filled_judged around.now len.now value.now) }
{
    check_int(around, found, len)?;
    check_type(around, found, None, value)
}

/// An expression.
#[tactic(auto, using(crate::proofs::Parted::expr_opened, hv_tree::specs::declared::ast::Arg::TheViews::the_lemmas, hv_lemmas::proofs::Lists::nothing, hv_lemmas::proofs::Lists::two), unfolding(crate::proofs::Parted::expr_by))]
pub fn judge_expr<'t>(
    around: &Around<'_, 't>,
    found: &mut Vec<Refusal>,
    x: &'t Expr,
) -> Result<(), NoMemory>
    ensures { OnOk result (found.new.items ≡ found.old.items ++ seen.expr_judged around.now x.now) }
{
    match &x.kind {
        ExprKind::Int(_) => Ok(()),
        ExprKind::Bool(_) => Ok(()),
        ExprKind::Path(place) => check_read(around, found, place),
        ExprKind::Call(_) => Ok(()),
        ExprKind::Await(handle) => check_awaited(around, found, handle),
        ExprKind::ArrayLit(elements) => judge_array(around, found, elements.as_slice()),
        ExprKind::Filled(len, value) => judge_filled(around, found, len.get(), value.get()),
        ExprKind::Count(place) => judge_count(around, found, place, x.place),
        ExprKind::Lambda(captures, _, _, _) => {
            check_captures(around, found, captures.as_slice())?;
            check_captured(around, found, captures.as_slice())
        }
        ExprKind::Prefix(operator, operand) => {
            check_base(around, found, operand_type(*operator), operand.get())
        }
        ExprKind::Chain(first, links) => {
            check_chain(around, found, first.get(), links.as_slice())?;
            check_compared(around, found, first.get(), links.as_slice())
        }
    }
}

/// A test.
pub fn judge_test<'t>(
    around: &Around<'_, 't>,
    found: &mut Vec<Refusal>,
    test: &'t Expr,
) -> Result<(), NoMemory>
    ensures { OnOk result (found.new.items ≡ found.old.items ++ seen.wrong around.now (Some BoolType) test.now) }
{
    check_base(around, found, Some(Base::Bool), test)
}

#[tactic(auto, using(hv_lemmas::proofs::Lists::two))]
fn judge_changed(
    around: &Around<'_, '_>,
    found: &mut Vec<Refusal>,
    root: &Name,
) -> Result<(), NoMemory>
    ensures { OnOk result (found.new.items ≡ found.old.items ++ seen.changed_judged around.now root.now) }
{
    check_root(around, found, root)?;
    check_changed(around, found, root)
}

#[tactic(auto, using(crate::proofs::Roots::root_of))]
fn check_lent<'t>(
    around: &Around<'_, 't>,
    found: &mut Vec<Refusal>,
    ty: &'t Ty,
    place: &'t PlaceExpr,
) -> Result<(), NoMemory>
    ensures { OnOk result (found.new.items ≡ found.old.items ++ seen.other_t1 around.now ty.now place.now) }
{
    refuse_if(
        found,
        other(ty, place_type(around, place)),
        Rule::T1,
        place.root.place,
    )
}

#[tactic(auto, using(hv_lemmas::proofs::Lists::two, crate::proofs::Roots::root_of))]
fn judge_inout<'t>(
    around: &Around<'_, 't>,
    found: &mut Vec<Refusal>,
    ty: &'t Ty,
    place: &'t PlaceExpr,
) -> Result<(), NoMemory>
    ensures { OnOk result (found.new.items ≡ found.old.items ++ seen.inout_judged around.now ty.now place.now) }
{
    check_lent(around, found, ty, place)?;
    judge_changed(around, found, &place.root)
}

fn written<'t>(ty: Option<&'t Ty>) -> Option<Base<'t>>
    ensures { option_base result ≡ typed (option_copied ty.entry) }
{
    match ty {
        Some(ty) => Some(Base::Written(ty)),
        None => None,
    }
}

#[tactic(auto, using(hv_lemmas::proofs::Lists::two, crate::proofs::Roots::root_of))]
fn judge_assign<'t>(
    around: &Around<'_, 't>,
    found: &mut Vec<Refusal>,
    place: &'t PlaceExpr,
    x: &'t Expr,
) -> Result<(), NoMemory>
    ensures { OnOk result (found.new.items ≡ found.old.items ++ seen.assign_judged around.now place.now x.now) }
{
    check_base(around, found, written(place_type(around, place)), x)?;
    judge_changed(around, found, &place.root)
}

#[tactic(auto, using(crate::proofs::Places::place_of))]
fn judge_returned<'t>(
    around: &Around<'_, 't>,
    found: &mut Vec<Refusal>,
    x: &'t Expr,
) -> Result<(), NoMemory>
    ensures { OnOk result (found.new.items ≡ found.old.items ++ seen.return_judged around.now x.now) }
{
    match around.returned {
        Some(ty) => check_base(around, found, Some(Base::Written(ty)), x),
        None => refuse_if(found, true, Rule::T1, x.place),
    }
}

fn is_struct_alone(around: &Around<'_, '_>, root: &Name) -> bool
    ensures { result ≡ spec.is_construction (here.tree_in around.now) (here.holding_in around.now) (here.scope_in around.now) root.now NoSteps }
{
    no_value(local_named(around, root)) && is_struct_name(around, root)
}

fn is_construction(around: &Around<'_, '_>, callee: &PlaceExpr) -> bool
    ensures { result ≡ seen.is_construction around.now callee.now }
{
    if callee.steps.is_empty() {
        is_struct_alone(around, &callee.root)
    } else {
        false
    }
}

#[tactic(auto, using(hv_type_synth::proofs::Opened::typed_meant, crate::proofs::Parted::task_opened))]
fn judge_spawned<'t>(
    around: &Around<'_, 't>,
    found: &mut Vec<Refusal>,
    ty: &'t Option<Ty>,
    call: &'t Call,
) -> Result<(), NoMemory>
    ensures { OnOk result (found.new.items ≡ found.old.items ++ seen.task_t1 around.now ty.now call.now) }
{
    let wrong = is_construction(around, &call.callee)
        || signature_differs(or_nothing(ty.as_ref()), signature_of(around, &call.callee));
    refuse_if(found, wrong, Rule::T1, call.callee.root.place)
}

#[tactic(auto, using(hv_lemmas::proofs::Lists::two))]
fn judge_task<'t>(
    around: &Around<'_, 't>,
    found: &mut Vec<Refusal>,
    ty: &'t Option<Ty>,
    budget: &'t Expr,
    call: &'t Call,
) -> Result<(), NoMemory>
    ensures { OnOk result (found.new.items ≡ found.old.items ++ seen.task_judged around.now ty.now budget.now call.now) }
{
    check_int(around, found, budget)?;
    judge_spawned(around, found, ty, call)
}

/// A statement.
#[tactic(auto, using(crate::proofs::Parted::stmt_opened, hv_tree::specs::declared::ast::Arg::TheViews::the_lemmas, hv_lemmas::proofs::Lists::nothing, hv_lemmas::proofs::Lists::two), unfolding(crate::proofs::Parted::stmt_by))]
pub fn judge_stmt<'t>(
    around: &Around<'_, 't>,
    found: &mut Vec<Refusal>,
    stmt: &'t Stmt,
) -> Result<(), NoMemory>
    ensures { OnOk result (found.new.items ≡ found.old.items ++ seen.stmt_judged around.now stmt.now) }
{
    match &stmt.kind {
        StmtKind::Var(_, _, None) => Ok(()),
        StmtKind::Var(_, ty, Some(x)) => check_base(around, found, Some(Base::Written(ty)), x),
        StmtKind::Let(_, ty, x) => check_base(around, found, Some(Base::Written(ty)), x),
        StmtKind::Inout(_, ty, place) => judge_inout(around, found, ty, place),
        StmtKind::Assign(place, x) => judge_assign(around, found, place, x),
        StmtKind::If(_, _) => Ok(()),
        StmtKind::While(_, _) => Ok(()),
        StmtKind::Return(None) => {
            refuse_if(found, around.returned.is_some(), Rule::T1, stmt.place)
        }
        StmtKind::Return(Some(x)) => judge_returned(around, found, x),
        StmtKind::Print(x) => {
            check_type(around, found, None, x)?;
            check_printed(around, found, x)
        }
        StmtKind::Task(_, ty, _, budget, call) => judge_task(around, found, ty, budget, call),
        StmtKind::Await(handle) => check_awaited(around, found, handle),
        StmtKind::Call(_) => Ok(()),
        StmtKind::Block(_) => Ok(()),
    }
}
