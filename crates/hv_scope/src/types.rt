// What the steps of a place lead to.
ghost use Rattle.std.specs.Prelude.{◌≡◌};
ghost use Rattle.std.specs.Option.{option_copied};
ghost use Rattle.hv_tree.specs.Core.{core_step, core_steps, core_tree, core_ty, NoSteps};
ghost use Rattle.hv_decls.specs.Types.{field_of, meant};
ghost use Rattle.hv_decls.specs.Statics as statics;
ghost use Rattle.hv_scope.specs.Known.{typed, field_found};

use crate::decls::Declared;
use hv_tree::{Name, Step, Ty};

#[tactic(auto, using(crate::proofs::TypeLemmas::field_opened, crate::proofs::TypeLemmas::field_named), unfolding(crate::proofs::TypeLemmas::field_by))]
fn field_of<'t>(declared: &Declared<'t>, ty: &'t Ty, name: &Name) -> Option<(usize, &'t Ty)>
    ensures { field_found result ≡ field_of (core_tree declared.now) (meant (core_ty ty.now)) name.now.text }
{
    match ty {
        Ty::Named(of) => declared.find_field(of.text.as_str(), name.text.as_str()),
        _ => None,
    }
}

/// The number and the type of a field of something of this type.
pub fn field_at<'t>(
    declared: &Declared<'t>,
    ty: Option<&'t Ty>,
    name: &Name,
) -> Option<(usize, &'t Ty)>
    ensures { field_found result ≡ statics.field_at (core_tree declared.now) (typed (option_copied ty.entry)) name.now }
{
    match ty {
        Some(ty) => field_of(declared, ty, name),
        None => None,
    }
}

/// The type of the elements of something of this type.
#[tactic(auto, using(crate::proofs::TypeLemmas::element_opened, crate::proofs::TypeLemmas::element_array), unfolding(crate::proofs::TypeLemmas::element_by))]
pub fn element_at<'t>(ty: Option<&'t Ty>) -> Option<&'t Ty>
    ensures { typed (option_copied result) ≡ statics.element_at (typed (option_copied ty.entry)) }
{
    match ty {
        Some(Ty::Array(_, element)) => Some(element.get()),
        _ => None,
    }
}

/// The type of what the step leads to.
#[tactic(auto, using(crate::proofs::TypeLemmas::behind_field, crate::proofs::TypeLemmas::behind_index))]
pub fn behind<'t>(declared: &Declared<'t>, ty: Option<&'t Ty>, step: &Step) -> Option<&'t Ty>
    ensures { typed (option_copied result) ≡ statics.type_behind (core_tree declared.now) (typed (option_copied ty.entry)) (core_step step.now NoSteps) }
{
    match step {
        Step::Field(name) => match field_at(declared, ty, name) {
            Some((_, ty)) => Some(ty),
            None => None,
        },
        Step::Index(_, _) => element_at(ty),
    }
}

/// The type that the steps lead to.
pub fn type_behind<'t>(
    declared: &Declared<'t>,
    ty: Option<&'t Ty>,
    steps: &[Step],
) -> Option<&'t Ty>
    ensures { typed (option_copied result) ≡ statics.type_behind (core_tree declared.now) (typed (option_copied ty.entry)) (core_steps steps.now) }
{
    let mut known = ty;
    for step in steps {
        known = behind(declared, known, step);
    }
    known
}
