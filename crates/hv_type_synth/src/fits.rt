// Whether types are those that are asked for.
ghost use Rattle.std.specs.Prelude.{◌≡◌, Some};
ghost use Rattle.hv_rules.specs.Events as events;
ghost use Rattle.hv_scope.specs.Known.{field_found};
ghost use Rattle.hv_type_synth.specs.Tests as tests;
ghost use Rattle.hv_type_synth.specs.Held.{base_by, known_by, option_type, option_ty_by, signature_by, ty_by, type_by};
ghost use Rattle.hv_type_synth.specs.Here as here;

use crate::around::Around;
use crate::same::same_held;
use crate::types::{Base, HeldType, Signature, Typed};
use hv_scope::{element_at, field_at};
use hv_symbols::Texts;
use hv_tree::{Name, Operator, Ty};

/// No array more around it.
pub fn held<'t>(base: Base<'t>) -> HeldType<'t>
    ensures { type_by result ≡ base_by base.entry }
{
    HeldType { arrays: 0, base }
}

/// Whether a position that asks for this type, or for any value, has something else.
pub fn misfits(asked: Option<HeldType<'_>>, found: Typed<'_>) -> bool
    ensures { result ≡ tests.misfits (option_type asked.entry) (known_by found.entry) }
{
    match (asked, found) {
        (_, Typed::Unknown) => false,
        (_, Typed::Nothing) => true,
        (None, Typed::Is(_)) => false,
        (Some(asked), Typed::Is(ty)) => !same_held(&ty, &asked),
    }
}

/// Whether a type is known and isn't the one that is asked for.
pub fn other(asked: &Ty, ty: Option<&Ty>) -> bool
    ensures { result ≡ tests.other (ty_by asked.now) (option_ty_by ty.entry) }
{
    match ty {
        Some(ty) => !same_held(&held(Base::Written(ty)), &held(Base::Written(asked))),
        None => false,
    }
}

/// Whether both are known and differ.
pub fn differ(a: Typed<'_>, b: Typed<'_>) -> bool
    ensures { result ≡ tests.differ (known_by a.entry) (known_by b.entry) }
{
    match (a, b) {
        (Typed::Unknown, _) => false,
        (_, Typed::Unknown) => false,
        (Typed::Nothing, Typed::Nothing) => false,
        (Typed::Nothing, Typed::Is(_)) => true,
        (Typed::Is(_), Typed::Nothing) => true,
        (Typed::Is(x), Typed::Is(y)) => !same_held(&x, &y),
    }
}

/// Whether a call gives something else.
pub fn signature_differs(given: Typed<'_>, signature: Signature<'_>) -> bool
    ensures { result ≡ tests.signature_differs (known_by given.entry) (signature_by signature.entry) }
{
    match signature {
        Signature::Signed(_, returned) => differ(given, returned),
        Signature::Unknown => false,
    }
}

/// `==` and `!=`, which compare values of any type without functions.
pub fn is_equality(operator: Operator) -> bool
    ensures { result ≡ tests.is_equality operator }
{
    match operator {
        Operator::Eq | Operator::Ne => true,
        _ => false,
    }
}

/// Whether a type is known and is no array.
#[tactic(auto, using(crate::proofs::Elements::array_decided))]
pub fn no_array(ty: Option<&Ty>) -> bool
    ensures { result ≡ tests.no_array (option_ty_by ty.entry) }
{
    match ty {
        Some(_) => element_at(ty).is_none(),
        None => false,
    }
}

/// Whether a type is known and has no such field.
#[tactic(auto, using(crate::proofs::Elements::field_decided))]
pub fn no_field(around: &Around<'_, '_>, ty: Option<&Ty>, name: &Name) -> bool
    ensures { result ≡ tests.no_field (here.tree_in around.now) (option_ty_by ty.entry) name.now }
{
    match ty {
        Some(_) => field_at(around.declared, ty, name).is_none(),
        None => false,
    }
}

#[tactic(auto, using(crate::proofs::Opened::called_opened, hv_tree::specs::declared::types::Ty::TheViews::the_lemmas), unfolding(crate::proofs::Opened::calls_nothing))]
fn is_no_function(ty: &Ty) -> bool
    ensures { result ≡ tests.no_function (Some (ty_by ty.now)) }
{
    match ty {
        Ty::Fun(_, _, _) => false,
        _ => true,
    }
}

/// Whether a type is known and is no function type.
pub fn no_function(ty: Option<&Ty>) -> bool
    ensures { result ≡ tests.no_function (option_ty_by ty.entry) }
{
    match ty {
        Some(ty) => is_no_function(ty),
        None => false,
    }
}

#[tactic(auto, using(crate::proofs::Opened::holds_opened, hv_tree::specs::declared::types::Ty::TheViews::the_lemmas), unfolding(crate::proofs::Opened::ty_holds))]
fn written_holds(holding: &Texts<'_>, ty: &Ty) -> bool
    ensures { result ≡ tests.holds holding.now (ty_by ty.now) }
{
    match ty {
        Ty::Named(name) => holding.has(name.text.as_str()),
        Ty::Array(_, element) => written_holds(holding, element.get()),
        Ty::Fun(_, _, _) => true,
        _ => false,
    }
}

#[tactic(auto, using(crate::proofs::Opened::function_holds))]
fn base_holds(holding: &Texts<'_>, base: Base<'_>) -> bool
    ensures { result ≡ tests.holds holding.now (base_by base.entry) }
{
    match base {
        Base::Int => false,
        Base::Bool => false,
        Base::Struct(name) => holding.has(name.text.as_str()),
        Base::Written(ty) => written_holds(holding, ty),
        Base::Function(_, _) => true,
    }
}

/// Whether it is known that there are function values in it.
#[tactic(auto, using(crate::proofs::Opened::type_holds))]
pub fn known_to_hold(holding: &Texts<'_>, found: Typed<'_>) -> bool
    ensures { result ≡ tests.known_to_hold holding.now (known_by found.entry) }
{
    match found {
        Typed::Is(ty) => base_holds(holding, ty.base),
        _ => false,
    }
}
