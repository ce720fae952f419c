// The steps of places, and how callees take their arguments.
ghost use Rattle.std.specs.Prelude.{◌≡◌, ◌∷◌, [], IfOk};
ghost use Rattle.std.specs.Option.{option_copied};
ghost use Rattle.hv_tree.specs.Core.{core_of, core_step, core_steps, NoSteps, core_tree};
ghost use Rattle.hv_tree.specs.declared.ast.PlaceExpr.{out-PlaceExpr};
ghost use Rattle.hv_decls.specs.Types.{fun_in};
ghost use Rattle.hv_decls.specs.Locals.{local_in};
ghost use Rattle.hv_rules.specs.Events as events;
ghost use Rattle.hv_decls.specs.Statics as statics;
ghost use Rattle.hv_scope.specs.Known.{typed};
ghost use Rattle.hv_flow_plan.specs.Scopes.{callee_by, tree_in, locals_in};

use crate::scope::{Scope, find};
use hv_decls::StaticStep;
use hv_items::Items;
use hv_scope::{Declared, behind, field_at, type_behind};
use hv_tree::{Conv, Expr, ExprKind, Name, Param, PlaceExpr, Step, Ty};
use std::alloc::{AllocError as NoMemory, Global};

/// How a call takes its arguments that are still to come.
#[derive(Clone, Copy)]
pub enum Callee<'t> {
    /// As a struct's parts.
    Constructs,
    Params(&'t [Param]),
    Types(&'t [(Conv, Ty)]),
}

#[tactic(auto, using(crate::proofs::TypeLemmas::index_opened, crate::proofs::TypeLemmas::index_int), unfolding(crate::proofs::TypeLemmas::index_by))]
fn index_step(index: &Expr) -> StaticStep
    ensures { result ≡ statics.index_step (core_of index.now) }
{
    match &index.kind {
        ExprKind::Int(value) => StaticStep::Literal(*value),
        _ => StaticStep::Any,
    }
}

/// The step, by the type before it. A field that no struct has is number 0.
#[tactic(auto, using(crate::proofs::TypeLemmas::step_field, crate::proofs::TypeLemmas::step_index))]
fn static_step<'t>(
    declared: &Declared<'t>,
    ty: Option<&'t Ty>,
    step: &Step,
) -> Result<StaticStep, NoMemory>
    ensures { IfOk result (λ s. statics.static_steps (core_tree declared.now) (typed (option_copied ty.entry)) (core_step step.now NoSteps) ≡ s ∷ []) }
{
    match step {
        Step::Field(name) => match field_at(declared, ty, name) {
            Some((number, _)) => match u32::try_from(number) {
                Ok(number) => Ok(StaticStep::Field(number)),
                Err(_) => Err(NoMemory),
            },
            None => Ok(StaticStep::Field(0)),
        },
        Step::Index(_, index) => Ok(index_step(index)),
    }
}

/// The steps of a place whose root has this type.
pub fn static_steps<'t>(
    alloc: Global,
    declared: &Declared<'t>,
    ty: Option<&'t Ty>,
    steps: &[Step],
) -> Result<Items<StaticStep>, NoMemory>
    ensures { IfOk result (λ v. v ≡ statics.static_steps (core_tree declared.now) (typed (option_copied ty.entry)) (core_steps steps.now)) }
{
    let mut known = ty;
    let mut path = Items::new(alloc);
    for step in steps {
        path.push(static_step(declared, known, step)?)?;
        known = behind(declared, known, step);
    }
    Ok(path)
}

/// How something of this type takes its arguments, where it is called.
#[tactic(auto, using(crate::proofs::TypeLemmas::called_opened, crate::proofs::TypeLemmas::called_fun), unfolding(crate::proofs::TypeLemmas::called_by))]
fn called<'t>(ty: Option<&'t Ty>) -> Callee<'t>
    ensures { callee_by result ≡ events.by_type (typed (option_copied ty.entry)) }
{
    match ty {
        Some(Ty::Fun(_, params, _)) => Callee::Types(params.as_slice()),
        _ => Callee::Constructs,
    }
}

/// How a top-level name takes its arguments.
fn top_callee<'t>(declared: &Declared<'t>, name: &Name) -> Callee<'t>
    ensures { callee_by result ≡ events.by_function (fun_in (core_tree declared.now).decls name.now.text) }
{
    match declared.find_function(name.text.as_str()) {
        Some(function) => Callee::Params(function.params.as_slice()),
        None => Callee::Constructs,
    }
}

/// The convention of the next argument, and the callee for those behind it.
pub fn next_conv<'t>(callee: Callee<'t>) -> (Option<Conv>, Callee<'t>)
    ensures conv { result.0 ≡ events.next_conv (callee_by callee.entry) }
    ensures others { callee_by result.1 ≡ events.other_convs (callee_by callee.entry) }
{
    match callee {
        Callee::Constructs => (None, callee),
        Callee::Params(params) => match params.split_first() {
            Some((param, rest)) => (Some(param.conv), Callee::Params(rest)),
            None => (None, Callee::Constructs),
        },
        Callee::Types(params) => match params.split_first() {
            Some(((conv, _), rest)) => (Some(*conv), Callee::Types(rest)),
            None => (None, Callee::Constructs),
        },
    }
}

/// How the place takes its arguments, where it is called.
pub fn called_place<'s, 't>(scope: &Scope<'s, 't>, place: &PlaceExpr) -> Callee<'t>
    ensures { callee_by result ≡ events.callee_by (tree_in scope.now) (local_in (locals_in scope.now) (out-PlaceExpr place.now).root.text) (out-PlaceExpr place.now).root (core_steps (out-PlaceExpr place.now).steps) }
{
    match find(scope, &place.root) {
        Some((_, known)) => called(type_behind(scope.declared, known.ty, place.steps.as_slice())),
        None => top_callee(scope.declared, &place.root),
    }
}
