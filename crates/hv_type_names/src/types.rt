// Names in types.
ghost use Rattle.std.specs.Prelude.{◌≡◌, ◌++◌, map, OnOk};
ghost use Rattle.hv_tree.specs.Core.{core_ty, core_param, core_field, core_option_ty};
ghost use Rattle.hv_type_names.specs.Found as spec;
ghost use Rattle.hv_type_names.specs.Parts as parts;

use crate::program::Program;
use hv_items::Boxed;
use hv_tree::{Conv, Field, Name, Param, Refusal, Rule, Ty};
use std::alloc::AllocError as NoMemory;

fn look_up_struct(
    program: &Program<'_>,
    found: &mut Vec<Refusal>,
    name: &Name,
) -> Result<(), NoMemory>
    ensures { OnOk result (found.new.items ≡ found.old.items ++ spec.named_found program.now name.now) }
{
    if !program.structs.has(name.text.as_str()) {
        found.push(Refusal {
            rule: Rule::N2,
            place: name.place,
        })?;
    }
    Ok(())
}

#[cycle(tys)]
#[tactic(auto, using(crate::proofs::Parts::ty_opened, hv_tree::specs::declared::types::Ty::TheViews::the_lemmas, hv_lemmas::proofs::Lists::nothing, hv_lemmas::proofs::Lists::two), unfolding(crate::proofs::Parts::ty_by))]
pub(crate) fn walk_ty(
    program: &Program<'_>,
    found: &mut Vec<Refusal>,
    ty: &Ty,
) -> Result<(), NoMemory>
    ensures { OnOk result (found.new.items ≡ found.old.items ++ spec.ty_found program.now (core_ty ty.now)) }
{
    match ty {
        Ty::Int(_) => Ok(()),
        Ty::Bool(_) => Ok(()),
        Ty::Named(name) => look_up_struct(program, found, name),
        Ty::Array(_, element) => walk_ty(program, found, element.get()),
        Ty::Fun(_, params, returned) => {
            walk_tys(program, found, params.as_slice())?;
            walk_returned(program, found, returned)
        }
    }
}

#[cycle(tys)]
fn walk_tys(
    program: &Program<'_>,
    found: &mut Vec<Refusal>,
    tys: &[(Conv, Ty)],
) -> Result<(), NoMemory>
    ensures { OnOk result (found.new.items ≡ found.old.items ++ parts.pairs_found program.now tys.now) }
{
    for (_, ty) in tys {
        walk_ty(program, found, ty)?;
    }
    Ok(())
}

#[cycle(tys)]
fn walk_returned(
    program: &Program<'_>,
    found: &mut Vec<Refusal>,
    returned: &Option<Boxed<Ty>>,
) -> Result<(), NoMemory>
    ensures { OnOk result (found.new.items ≡ found.old.items ++ spec.option_ty_found program.now (core_option_ty returned.now)) }
{
    match returned {
        Some(ty) => walk_ty(program, found, ty.get()),
        None => Ok(()),
    }
}

pub(crate) fn walk_option_ty(
    program: &Program<'_>,
    found: &mut Vec<Refusal>,
    ty: &Option<Ty>,
) -> Result<(), NoMemory>
    ensures { OnOk result (found.new.items ≡ found.old.items ++ spec.option_ty_found program.now (core_option_ty ty.now)) }
{
    match ty {
        Some(ty) => walk_ty(program, found, ty),
        None => Ok(()),
    }
}

pub(crate) fn walk_params(
    program: &Program<'_>,
    found: &mut Vec<Refusal>,
    params: &[Param],
) -> Result<(), NoMemory>
    ensures { OnOk result (found.new.items ≡ found.old.items ++ spec.params_found program.now (map core_param params.now)) }
{
    for param in params {
        walk_ty(program, found, &param.ty)?;
    }
    Ok(())
}

pub(crate) fn walk_fields(
    program: &Program<'_>,
    found: &mut Vec<Refusal>,
    fields: &[Field],
) -> Result<(), NoMemory>
    ensures { OnOk result (found.new.items ≡ found.old.items ++ spec.fields_found program.now (map core_field fields.now)) }
{
    for field in fields {
        walk_ty(program, found, &field.ty)?;
    }
    Ok(())
}
