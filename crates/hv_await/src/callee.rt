// How the callee of a task takes its arguments.
ghost use Rattle.std.specs.Prelude.{◌≡◌, map};
ghost use Rattle.std.specs.Option.{option_copied};
ghost use Rattle.hv_tree.specs.Core.{core_param, core_place, core_steps, core_tree, core_tys_of};
ghost use Rattle.hv_tree.specs.declared.ast.PlaceExpr.{out-PlaceExpr};
ghost use Rattle.hv_decls.specs.Types.{convs_of, fun_in, params_meant};
ghost use Rattle.hv_decls.specs.Locals.{local_in};
ghost use Rattle.hv_rules.specs.Rules.{convs_or_none};
ghost use Rattle.hv_rules.specs.Events as events;
ghost use Rattle.hv_scope.specs.Known.{local_by, typed};
ghost use Rattle.hv_flow_plan.specs.Scopes.{param_types};
ghost use Rattle.hv_await.specs.Changing as spec;

use hv_scope::{Declared, Visible, type_behind};
use hv_tree::{Conv, Name, Param, PlaceExpr, Ty};

/// How a callee takes its arguments.
#[derive(Clone, Copy)]
pub enum Callee<'t> {
    Constructs,
    Params(&'t [Param]),
    Types(&'t [(Conv, Ty)]),
}

fn is_change(conv: Conv) -> bool
    ensures { result ≡ spec.is_change conv }
{
    match conv {
        Conv::Inout | Conv::Set => true,
        Conv::Let | Conv::Sink => false,
    }
}

fn params_change(params: &[Param]) -> bool
    ensures { result ≡ spec.any_change (map events.conv_of_param (map core_param params.now)) }
{
    for param in params {
        if is_change(param.conv) {
            return true;
        }
    }
    false
}

fn types_change(params: &[(Conv, Ty)]) -> bool
    ensures { result ≡ spec.any_change (convs_of (params_meant (core_tys_of (param_types params.now)))) }
{
    for (conv, _) in params {
        if is_change(*conv) {
            return true;
        }
    }
    false
}

fn changes(callee: Callee<'_>) -> bool
    ensures { result ≡ spec.any_change (convs_or_none (spec.taken_by callee.entry)) }
{
    match callee {
        Callee::Constructs => false,
        Callee::Params(params) => params_change(params),
        Callee::Types(params) => types_change(params),
    }
}

#[tactic(auto, using(hv_flow_plan::proofs::TypeLemmas::called_opened, hv_flow_plan::proofs::TypeLemmas::called_fun), unfolding(hv_flow_plan::proofs::TypeLemmas::called_by))]
fn called<'t>(ty: Option<&'t Ty>) -> Callee<'t>
    ensures { spec.taken_by result ≡ events.by_type (typed (option_copied ty.entry)) }
{
    match ty {
        Some(Ty::Fun(_, params, _)) => Callee::Types(params.as_slice()),
        _ => Callee::Constructs,
    }
}

fn top_callee<'t>(declared: &Declared<'t>, name: &Name) -> Callee<'t>
    ensures { spec.taken_by result ≡ events.by_function (fun_in (core_tree declared.now).decls name.now.text) }
{
    match declared.find_function(name.text.as_str()) {
        Some(function) => Callee::Params(function.params.as_slice()),
        None => Callee::Constructs,
    }
}

fn called_place<'t>(declared: &Declared<'t>, visible: &Visible<'t>, place: &PlaceExpr) -> Callee<'t>
    ensures { spec.taken_by result ≡ events.callee_by (core_tree declared.now) (local_in (map local_by visible.now) (out-PlaceExpr place.now).root.text) (out-PlaceExpr place.now).root (core_steps (out-PlaceExpr place.now).steps) }
{
    match visible.find(place.root.text.as_str()) {
        Some(known) => called(type_behind(declared, known.ty, place.steps.as_slice())),
        None => top_callee(declared, &place.root),
    }
}

/// Whether a call of the place changes what its caller has.
pub(crate) fn takes_change<'t>(
    declared: &Declared<'t>,
    visible: &Visible<'t>,
    place: &PlaceExpr,
) -> bool
    ensures { result ≡ spec.takes_change (core_tree declared.now) (map local_by visible.now) (out-PlaceExpr place.now).root (core_steps (out-PlaceExpr place.now).steps) }
{
    changes(called_place(declared, visible, place))
}
