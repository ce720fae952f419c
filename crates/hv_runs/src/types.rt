// Function types, whose parameters are to be `let`.
ghost use Rattle.std.specs.Prelude.{◌≡◌, map};
ghost use Rattle.hv_tree.specs.Core.{core_ty, core_param, core_field, core_option_ty};
ghost use Rattle.hv_runs.specs.Walked as spec;
ghost use Rattle.hv_runs.specs.Parts as parts;

use hv_items::Boxed;
use hv_tree::{Conv, Field, Param, Ty};

fn is_let(conv: Conv) -> bool
    ensures { result ≡ spec.is_let conv }
{
    match conv {
        Conv::Let => true,
        Conv::Inout => false,
        Conv::Sink => false,
        Conv::Set => false,
    }
}

#[cycle(tys)]
#[tactic(auto, using(crate::proofs::Parts::ty_opened, hv_tree::specs::declared::types::Ty::TheViews::the_lemmas), unfolding(crate::proofs::Parts::ty_by))]
pub(crate) fn ty_reads(ty: &Ty) -> bool
    ensures { result ≡ spec.ty_reads (core_ty ty.now) }
{
    match ty {
        Ty::Int(_) => true,
        Ty::Bool(_) => true,
        Ty::Named(_) => true,
        Ty::Array(_, element) => ty_reads(element.get()),
        Ty::Fun(_, params, returned) => tys_read(params.as_slice()) && returned_reads(returned),
    }
}

#[cycle(tys)]
fn tys_read(tys: &[(Conv, Ty)]) -> bool
    ensures { result ≡ parts.pairs_read tys.now }
{
    for (conv, ty) in tys {
        if !is_let(*conv) || !ty_reads(ty) {
            return false;
        }
    }
    true
}

#[cycle(tys)]
fn returned_reads(returned: &Option<Boxed<Ty>>) -> bool
    ensures { result ≡ spec.option_ty_reads (core_option_ty returned.now) }
{
    match returned {
        Some(ty) => ty_reads(ty.get()),
        None => true,
    }
}

pub(crate) fn option_ty_reads(ty: &Option<Ty>) -> bool
    ensures { result ≡ spec.option_ty_reads (core_option_ty ty.now) }
{
    match ty {
        Some(ty) => ty_reads(ty),
        None => true,
    }
}

fn param_reads(param: &Param) -> bool
    ensures { result ≡ spec.param_reads (core_param param.now) }
{
    is_let(param.conv) && ty_reads(&param.ty)
}

pub(crate) fn params_read(params: &[Param]) -> bool
    ensures { result ≡ spec.params_read (map core_param params.now) }
{
    for param in params {
        if !param_reads(param) {
            return false;
        }
    }
    true
}

pub(crate) fn fields_read(fields: &[Field]) -> bool
    ensures { result ≡ spec.fields_read (map core_field fields.now) }
{
    for field in fields {
        if !ty_reads(&field.ty) {
            return false;
        }
    }
    true
}
