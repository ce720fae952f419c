// What is known of the type of an expression, and of a callee.
ghost use Rattle.std.specs.Prelude.{◌≡◌, IfOk, Some};
ghost use Rattle.hv_tree.specs.Core.{core_place, NoSteps};
ghost use Rattle.hv_decls.specs.Types.{fun_in, struct_in};
ghost use Rattle.hv_type_rules.specs.Typing as typing;
ghost use Rattle.hv_type_synth.specs.Held.{base_by, known_by, option_base, option_ty_by, signature_by, ty_by, wanted_next, wants_by};
ghost use Rattle.hv_type_synth.specs.Here as here;

use crate::around::{Around, local_named};
use crate::types::{Base, HeldType, Signature, Takes, Typed, Wants, next_taken, written_result};
use hv_scope::{Kind, type_behind, value_type};
use hv_tree::{Conv, Expr, ExprKind, Name, Operator, PlaceExpr, Ty};
use std::alloc::AllocError as NoMemory;

/// A type with no array around it.
fn plain<'t>(base: Base<'t>) -> Typed<'t>
    ensures { known_by result ≡ typing.Is (base_by base.entry) }
{
    Typed::Is(HeldType { arrays: 0, base })
}

/// A type as it is written.
pub fn known<'t>(ty: Option<&'t Ty>) -> Typed<'t>
    ensures { known_by result ≡ typing.known (option_ty_by ty.entry) }
{
    match ty {
        Some(ty) => plain(Base::Written(ty)),
        None => Typed::Unknown,
    }
}

/// A result as it is written, if it is.
pub fn or_nothing<'t>(ty: Option<&'t Ty>) -> Typed<'t>
    ensures { known_by result ≡ typing.or_nothing (option_ty_by ty.entry) }
{
    match ty {
        Some(ty) => plain(Base::Written(ty)),
        None => Typed::Nothing,
    }
}

// An array of such elements.
fn array_of<'t>(element: Typed<'t>) -> Result<Typed<'t>, NoMemory>
    ensures { IfOk result (λ t. known_by t ≡ typing.array_of (known_by element.entry)) }
{
    match element {
        Typed::Is(ty) => match ty.arrays.checked_add(1) {
            Some(arrays) => Ok(Typed::Is(HeldType {
                arrays,
                base: ty.base,
            })),
            None => Err(NoMemory),
        },
        _ => Ok(Typed::Unknown),
    }
}

/// The type that an operator asks of each operand; `==` and `!=` ask for two equal ones.
pub fn operand_type<'t>(operator: Operator) -> Option<Base<'t>>
    ensures { option_base result ≡ typing.operand_type operator }
{
    match operator {
        Operator::Eq | Operator::Ne => None,
        Operator::And | Operator::Or | Operator::Not => Some(Base::Bool),
        _ => Some(Base::Int),
    }
}

fn given_type<'t>(operator: Operator) -> Base<'t>
    ensures { base_by result ≡ typing.given_type operator }
{
    match operator {
        Operator::Add | Operator::Sub | Operator::Mul | Operator::Div | Operator::Rem => Base::Int,
        Operator::Neg => Base::Int,
        _ => Base::Bool,
    }
}

// What an await gives.
fn awaited_type<'t>(around: &Around<'_, 't>, handle: &Name) -> Typed<'t>
    ensures { known_by result ≡ typing.awaited_type (here.local_named around.now handle.now) }
{
    match local_named(around, handle) {
        Some(known) => handle_by(known.kind, known.ty),
        None => Typed::Unknown,
    }
}

fn handle_by<'t>(kind: Kind, ty: Option<&'t Ty>) -> Typed<'t>
    ensures { known_by result ≡ typing.handle_by (here.kind_of kind) (option_ty_by ty.entry) }
{
    match kind {
        Kind::Handle => or_nothing(ty),
        Kind::Captured => Typed::Unknown,
        Kind::Passed(_) => Typed::Unknown,
        Kind::Var => Typed::Unknown,
        Kind::Let => Typed::Unknown,
        Kind::Inout => Typed::Unknown,
    }
}

// The type of a function's name.
fn function_value<'t>(around: &Around<'_, 't>, name: &Name) -> Typed<'t>
    ensures { known_by result ≡ typing.fun_value (fun_in (here.tree_in around.now).decls name.now.text) }
{
    match around.declared.find_function(name.text.as_str()) {
        Some(function) => plain(Base::Function(function.params.as_slice(), &function.result)),
        None => Typed::Unknown,
    }
}

// The type of a place or of a top-level name.
#[tactic(auto, using(hv_tree::proofs::CoreLemmas::opened_place, crate::proofs::Callees::named_alone, crate::proofs::Callees::named_behind))]
fn path_type<'t>(around: &Around<'_, 't>, place: &PlaceExpr) -> Typed<'t>
    ensures { known_by result ≡ typing.path_by (here.tree_in around.now) (here.local_named around.now (core_place place.now).0) (core_place place.now).0 (core_place place.now).1 }
{
    match local_named(around, &place.root) {
        Some(local) => known(type_behind(
            around.declared,
            value_type(&local),
            place.steps.as_slice(),
        )),
        None => {
            if place.steps.is_empty() {
                function_value(around, &place.root)
            } else {
                Typed::Unknown
            }
        }
    }
}

// The signature of a function value.
#[tactic(auto, using(crate::proofs::Callees::value_opened, hv_tree::specs::declared::types::Ty::TheViews::the_lemmas), unfolding(crate::proofs::Callees::value_by))]
fn signature_of_ty<'t>(ty: &'t Ty) -> Signature<'t>
    ensures { signature_by result ≡ typing.by_value (Some (ty_by ty.now)) }
{
    match ty {
        Ty::Fun(_, params, returned) => Signature::Signed(
            Wants::Taken(Takes::Types(params.as_slice())),
            or_nothing(written_result(returned)),
        ),
        _ => Signature::Unknown,
    }
}

fn signature_of_value<'t>(ty: Option<&'t Ty>) -> Signature<'t>
    ensures { signature_by result ≡ typing.by_value (option_ty_by ty.entry) }
{
    match ty {
        Some(ty) => signature_of_ty(ty),
        None => Signature::Unknown,
    }
}

// The signature of a struct.
fn signature_of_struct<'t>(around: &Around<'_, 't>, name: &Name) -> Signature<'t>
    ensures { signature_by result ≡ typing.by_struct (struct_in (here.tree_in around.now).decls name.now.text) }
{
    match around.declared.find_struct(name.text.as_str()) {
        Some(found) => Signature::Signed(
            Wants::Fields(found.fields.as_slice()),
            plain(Base::Struct(&found.name)),
        ),
        None => Signature::Unknown,
    }
}

// The signature of a top-level name.
#[tactic(auto, using(crate::proofs::Opened::typed_meant))]
fn signature_of_name<'t>(around: &Around<'_, 't>, name: &Name) -> Signature<'t>
    ensures { signature_by result ≡ typing.by_name (here.tree_in around.now) name.now NoSteps }
{
    match around.declared.find_function(name.text.as_str()) {
        Some(function) => Signature::Signed(
            Wants::Taken(Takes::Params(function.params.as_slice())),
            or_nothing(function.result.as_ref()),
        ),
        None => signature_of_struct(around, name),
    }
}

/// What is known of a callee.
#[tactic(auto, using(hv_tree::proofs::CoreLemmas::opened_place, crate::proofs::Callees::called_alone, crate::proofs::Callees::called_behind))]
pub fn signature_of<'t>(around: &Around<'_, 't>, callee: &PlaceExpr) -> Signature<'t>
    ensures { signature_by result ≡ here.signature_of around.now callee.now }
{
    match local_named(around, &callee.root) {
        Some(local) => signature_of_value(type_behind(
            around.declared,
            value_type(&local),
            callee.steps.as_slice(),
        )),
        None => {
            if callee.steps.is_empty() {
                signature_of_name(around, &callee.root)
            } else {
                Signature::Unknown
            }
        }
    }
}

// The type of a call.
fn gives<'t>(signature: Signature<'t>) -> Typed<'t>
    ensures { known_by result ≡ typing.gives (signature_by signature.entry) }
{
    match signature {
        Signature::Signed(_, returned) => returned,
        Signature::Unknown => Typed::Unknown,
    }
}

/// What the next argument is for, and the others.

pub fn next_wanted<'t>(wants: Wants<'t>) -> Option<(Option<Conv>, &'t Ty, Wants<'t>)>
    ensures { wanted_next result ≡ wants_by wants.entry }
{
    match wants {
        Wants::Fields(fields) => match fields.split_first() {
            Some((field, rest)) => Some((None, &field.ty, Wants::Fields(rest))),
            None => None,
        },
        Wants::Taken(takes) => match next_taken(takes) {
            Some((conv, ty, rest)) => Some((Some(conv), ty, Wants::Taken(rest))),
            None => None,
        },
    }
}

/// What is known of the type of an expression.
#[tactic(auto, using(crate::proofs::Callees::type_opened, hv_tree::specs::declared::ast::Arg::TheViews::the_lemmas), unfolding(crate::proofs::Callees::kind_type))]
pub fn type_of<'t>(around: &Around<'_, 't>, x: &'t Expr) -> Result<Typed<'t>, NoMemory>
    ensures { IfOk result (λ t. known_by t ≡ here.type_here around.now x.now) }
{
    match &x.kind {
        ExprKind::Int(_) => Ok(plain(Base::Int)),
        ExprKind::Bool(_) => Ok(plain(Base::Bool)),
        ExprKind::Path(place) => Ok(path_type(around, place)),
        ExprKind::Call(call) => Ok(gives(signature_of(around, &call.callee))),
        ExprKind::Await(handle) => Ok(awaited_type(around, handle)),
        ExprKind::ArrayLit(elements) => match elements.as_slice().split_first() {
            Some((first, _)) => array_of(type_of(around, first)?),
            None => Ok(Typed::Unknown),
        },
        ExprKind::Filled(_, value) => array_of(type_of(around, value.get())?),
        ExprKind::Count(_) => Ok(plain(Base::Int)),
        ExprKind::Lambda(_, params, returned, _) => {
            Ok(plain(Base::Function(params.as_slice(), returned)))
        }
        ExprKind::Prefix(operator, _) => Ok(plain(given_type(*operator))),
        ExprKind::Chain(first, links) => match links.as_slice().split_first() {
            Some(((operator, _, _), _)) => Ok(plain(given_type(*operator))),
            None => type_of(around, first.get()),
        },
    }
}
