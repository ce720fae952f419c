// Types, and what is declared with them.
ghost use Rattle.std.specs.Prelude.{◌≡◌, ◌++◌, [], map, OnOk, string_bytes};
ghost use Rattle.hv_tree.specs.Core.{core_ty, core_param, core_option_ty};
ghost use Rattle.hv_tree.specs.Printed as printed;
ghost use Rattle.hv_print.specs.Texts as texts;

use hv_items::Boxed;
use hv_tree::{Conv, Name, Param, Ty};
use std::alloc::AllocError as NoMemory;

pub(crate) const COMMA: &str = ", ";

fn conv_text(conv: Conv) -> &'static str
    ensures { result.now ≡ printed.conv_text conv }
{
    match conv {
        Conv::Let => "",
        Conv::Inout => "inout ",
        Conv::Sink => "sink ",
        Conv::Set => "set ",
    }
}

pub(crate) fn push_name(out: &mut String, name: &Name) -> Result<(), NoMemory>
    ensures { OnOk result (string_bytes out.new ≡ string_bytes out.old ++ name.now.text) }
{
    out.push_str(name.text.as_str())
}

#[tactic(auto, using(crate::proofs::Parts::is_fun_opened), unfolding(crate::proofs::Parts::is_fun_by))]
fn is_fun(ty: &Ty) -> bool
    ensures { result ≡ printed.is_fun_ty (core_ty ty.now) }
{
    match ty {
        Ty::Fun(_, _, _) => true,
        _ => false,
    }
}

#[cycle(tys)]
#[tactic(auto, using(crate::proofs::Parts::ty_int, crate::proofs::Parts::ty_bool, crate::proofs::Parts::ty_named, crate::proofs::Parts::ty_array, crate::proofs::Parts::ty_fun))]
pub(crate) fn push_ty(out: &mut String, ty: &Ty) -> Result<(), NoMemory>
    ensures { OnOk result (string_bytes out.new ≡ string_bytes out.old ++ texts.ty_text ty.now) }
{
    match ty {
        Ty::Int(_) => out.push_str("Int"),
        Ty::Bool(_) => out.push_str("Bool"),
        Ty::Named(name) => push_name(out, name),
        Ty::Array(_, element) => {
            out.push_str("[")?;
            push_ty(out, element.get())?;
            out.push_str("]")
        }
        Ty::Fun(_, params, returned) => {
            out.push_str("fun(")?;
            push_tys(out, params.as_slice())?;
            push_result(out, returned)
        }
    }
}

#[cycle(tys)]
fn push_tys(out: &mut String, params: &[(Conv, Ty)]) -> Result<(), NoMemory>
    ensures { OnOk result (string_bytes out.new ≡ string_bytes out.old ++ texts.tys_text [] params.now) }
{
    let mut before = "";
    for (conv, ty) in params {
        out.push_str(before)?;
        out.push_str(conv_text(*conv))?;
        push_ty(out, ty)?;
        before = COMMA;
    }
    Ok(())
}

// The result of a function type behind its parameters.
#[cycle(tys)]
fn push_result(out: &mut String, returned: &Option<Boxed<Ty>>) -> Result<(), NoMemory>
    ensures { OnOk result (string_bytes out.new ≡ string_bytes out.old ++ texts.result_text returned.now) }
{
    match returned {
        None => out.push_str(")"),
        Some(ty) => {
            out.push_str(") -> ")?;
            push_rtype(out, ty.get())
        }
    }
}

// A type where one of a function stands in brackets.
#[cycle(tys)]
fn push_rtype(out: &mut String, ty: &Ty) -> Result<(), NoMemory>
    ensures { OnOk result (string_bytes out.new ≡ string_bytes out.old ++ printed.grouped (printed.is_fun_ty (core_ty ty.now)) (texts.ty_text ty.now)) }
{
    if is_fun(ty) {
        out.push_str("(")?;
        push_ty(out, ty)?;
        out.push_str(")")
    } else {
        push_ty(out, ty)
    }
}

pub(crate) fn push_typed(out: &mut String, name: &Name, ty: &Ty) -> Result<(), NoMemory>
    ensures { OnOk result (string_bytes out.new ≡ string_bytes out.old ++ printed.typed_text name.now (core_ty ty.now)) }
{
    push_name(out, name)?;
    out.push_str(": ")?;
    push_ty(out, ty)
}

fn push_params(out: &mut String, params: &[Param]) -> Result<(), NoMemory>
    ensures { OnOk result (string_bytes out.new ≡ string_bytes out.old ++ printed.params_text [] (map core_param params.now)) }
{
    let mut before = "";
    for param in params {
        out.push_str(before)?;
        push_name(out, &param.name)?;
        out.push_str(": ")?;
        out.push_str(conv_text(param.conv))?;
        push_ty(out, &param.ty)?;
        before = ", ";
    }
    Ok(())
}

// The result of a function or lambda behind its parameters.
fn push_return(out: &mut String, returned: &Option<Ty>) -> Result<(), NoMemory>
    ensures { OnOk result (string_bytes out.new ≡ string_bytes out.old ++ printed.return_text (core_option_ty returned.now)) }
{
    match returned {
        None => Ok(()),
        Some(ty) => {
            out.push_str(" -> ")?;
            push_ty(out, ty)
        }
    }
}

// The parameters of a function or lambda in their brackets, and its result.
pub(crate) fn push_signature(
    out: &mut String,
    params: &[Param],
    returned: &Option<Ty>,
) -> Result<(), NoMemory>
    ensures { OnOk result (string_bytes out.new ≡ string_bytes out.old ++ texts.signature_text params.now returned.now) }
{
    out.push_str("(")?;
    push_params(out, params)?;
    out.push_str(")")?;
    push_return(out, returned)
}

// The type of a handle, if it is written.
pub(crate) fn push_handle_ty(out: &mut String, ty: &Option<Ty>) -> Result<(), NoMemory>
    ensures { OnOk result (string_bytes out.new ≡ string_bytes out.old ++ printed.handle_text (core_option_ty ty.now)) }
{
    match ty {
        None => Ok(()),
        Some(ty) => {
            out.push_str(": ")?;
            push_ty(out, ty)
        }
    }
}

pub(crate) fn push_names(out: &mut String, names: &[Name]) -> Result<(), NoMemory>
    ensures { OnOk result (string_bytes out.new ≡ string_bytes out.old ++ printed.names_text [] names.now) }
{
    let mut before = "";
    for name in names {
        out.push_str(before)?;
        push_name(out, name)?;
        before = COMMA;
    }
    Ok(())
}
