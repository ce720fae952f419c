// Whether types are the same: by structure, structs by name.
ghost use Rattle.std.specs.Prelude.{◌≡◌};
ghost use Rattle.hv_type_synth.specs.Tests.{option_same, same_conv, same_type, same_params};
ghost use Rattle.hv_scope.specs.Known.{typed};
ghost use Rattle.hv_type_synth.specs.Held.{base_by, inside, option_base, option_ty_by, pairs_by, shape_by, takes_by, ty_by, type_by};

use crate::types::{Base, HeldType, Shape, Takes, base_shape, next_taken};
use hv_items::Boxed;
use hv_tree::{Conv, Ty};

fn same_conv(a: Conv, b: Conv) -> bool
    ensures { result ≡ same_conv a b }
{
    match (a, b) {
        (Conv::Let, Conv::Let) => true,
        (Conv::Inout, Conv::Inout) => true,
        (Conv::Sink, Conv::Sink) => true,
        (Conv::Set, Conv::Set) => true,
        _ => false,
    }
}

#[cycle(same)]
#[tactic(auto, using(crate::proofs::Opened::same_opened, hv_tree::specs::declared::types::Ty::TheViews::the_lemmas), unfolding(crate::proofs::Opened::same_by))]
fn same_ty(a: &Ty, b: &Ty) -> bool
    ensures { result ≡ same_type (ty_by a.now) (ty_by b.now) }
{
    match (a, b) {
        (Ty::Int(_), Ty::Int(_)) => true,
        (Ty::Bool(_), Ty::Bool(_)) => true,
        (Ty::Named(x), Ty::Named(y)) => x.text.as_str() == y.text.as_str(),
        (Ty::Array(_, x), Ty::Array(_, y)) => same_ty(x.get(), y.get()),
        (Ty::Fun(_, ps, x), Ty::Fun(_, qs, y)) => {
            same_tys(ps.as_slice(), qs.as_slice()) && same_boxed(x, y)
        }
        _ => false,
    }
}

#[cycle(same)]
fn same_tys(a: &[(Conv, Ty)], b: &[(Conv, Ty)]) -> bool
    ensures { result ≡ same_params (pairs_by a.now) (pairs_by b.now) }
{
    let mut right = b;
    for (conv, ty) in a {
        let Some(((other, with), rest)) = right.split_first() else {
            return false;
        };
        if !same_conv(*conv, *other) || !same_ty(ty, with) {
            return false;
        }
        right = rest;
    }
    right.is_empty()
}

#[cycle(same)]
fn same_boxed(a: &Option<Boxed<Ty>>, b: &Option<Boxed<Ty>>) -> bool
    ensures { result ≡ option_same (typed a.now) (typed b.now) }
{
    match (a, b) {
        (Some(x), Some(y)) => same_ty(x.get(), y.get()),
        (None, None) => true,
        _ => false,
    }
}

fn same_takes(a: Takes<'_>, b: Takes<'_>) -> bool
    ensures { result ≡ same_params (takes_by a.entry) (takes_by b.entry) }
{
    let mut left = a;
    let mut right = b;
    while let Some((conv, ty, rest)) = next_taken(left) {
        let Some((other, with, more)) = next_taken(right) else {
            return false;
        };
        if !same_conv(conv, other) || !same_ty(ty, with) {
            return false;
        }
        left = rest;
        right = more;
    }
    next_taken(right).is_none()
}

fn same_option(a: Option<&Ty>, b: Option<&Ty>) -> bool
    ensures { result ≡ option_same (option_ty_by a.entry) (option_ty_by b.entry) }
{
    match (a, b) {
        (Some(x), Some(y)) => same_ty(x, y),
        (None, None) => true,
        _ => false,
    }
}

#[tactic(auto, using(crate::proofs::Opened::shapes_opened), unfolding(crate::proofs::Opened::shapes_same))]
fn same_shape(a: Shape<'_>, b: Shape<'_>) -> bool
    ensures { result ≡ same_type (shape_by a.entry) (shape_by b.entry) }
{
    match (a, b) {
        (Shape::Int, Shape::Int) => true,
        (Shape::Bool, Shape::Bool) => true,
        (Shape::Struct(x), Shape::Struct(y)) => x.text.as_str() == y.text.as_str(),
        (Shape::Array(x), Shape::Array(y)) => same_ty(x, y),
        (Shape::Function(ps, x), Shape::Function(qs, y)) => {
            same_takes(ps, qs) && same_option(x, y)
        }
        _ => false,
    }
}

fn same_base(a: Base<'_>, b: Base<'_>) -> bool
    ensures { result ≡ same_type (base_by a.entry) (base_by b.entry) }
{
    same_shape(base_shape(a), base_shape(b))
}

// The base inside so many arrays, if there are so many.
fn inside<'t>(base: Base<'t>, count: usize) -> Option<Base<'t>>
    ensures { option_base result ≡ inside count (base_by base.entry) }
{
    let mut inner = base;
    for _ in 0..count {
        match base_shape(inner) {
            Shape::Array(ty) => inner = Base::Written(ty),
            _ => return None,
        }
    }
    Some(inner)
}

/// Whether two types are the same.
pub(crate) fn same_held(a: &HeldType<'_>, b: &HeldType<'_>) -> bool
    ensures { result ≡ same_type (type_by a.now) (type_by b.now) }
{
    if a.arrays <= b.arrays {
        match inside(a.base, b.arrays - a.arrays) {
            Some(inner) => same_base(inner, b.base),
            None => false,
        }
    } else {
        match inside(b.base, a.arrays - b.arrays) {
            Some(inner) => same_base(a.base, inner),
            None => false,
        }
    }
}
