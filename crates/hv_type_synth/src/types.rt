// Types as the judge holds them, without memory of their own.
ghost use Rattle.std.specs.Prelude.{◌≡◌, Option, Some, None};
ghost use Rattle.hv_scope.specs.Known.{typed};
ghost use Rattle.hv_type_synth.specs.Held.{base_by, shape_by, takes_by, taken_by, ty_by, option_ty_by};

use hv_items::Boxed;
use hv_tree::{Conv, Field, Name, Param, Ty};

/// A type: so many arrays around its base.
#[derive(Clone, Copy)]
pub struct HeldType<'t> {
    pub arrays: usize,
    pub base: Base<'t>,
}

/// A type without the arrays that are counted. One that is written may itself be an array.
#[derive(Clone, Copy)]
pub enum Base<'t> {
    Int,
    Bool,
    /// By its name.
    Struct(&'t Name),
    /// As it stands in the source.
    Written(&'t Ty),
    /// Of a function or a lambda.
    Function(&'t [Param], &'t Option<Ty>),
}

/// What is known of the type of an expression.
#[derive(Clone, Copy)]
pub enum Typed<'t> {
    /// A part violates a rule, so that there is no type.
    Unknown,
    /// That of a call without result.
    Nothing,
    Is(HeldType<'t>),
}

/// The parameters of a function, as far as its type has them.
#[derive(Clone, Copy)]
pub enum Takes<'t> {
    Params(&'t [Param]),
    Types(&'t [(Conv, Ty)]),
}

/// What a call takes that is still to come.
#[derive(Clone, Copy)]
pub enum Wants<'t> {
    Fields(&'t [Field]),
    Taken(Takes<'t>),
}

/// What is known of a callee.
#[derive(Clone, Copy)]
pub enum Signature<'t> {
    Unknown,
    /// What the call takes, and what it gives.
    Signed(Wants<'t>, Typed<'t>),
}

// A type by its outermost level.
#[derive(Clone, Copy)]
pub(crate) enum Shape<'t> {
    Int,
    Bool,
    Struct(&'t Name),
    Array(&'t Ty),
    Function(Takes<'t>, Option<&'t Ty>),
}

// The next parameter, and the others.
#[tactic(auto, using(crate::proofs::Opened::params_none, crate::proofs::Opened::pairs_none))]
pub(crate) fn next_taken<'t>(takes: Takes<'t>) -> Option<(Conv, &'t Ty, Takes<'t>)>
    ensures { taken_by result ≡ takes_by takes.entry }
{
    match takes {
        Takes::Params(params) => match params.split_first() {
            Some((param, rest)) => Some((param.conv, &param.ty, Takes::Params(rest))),
            None => None,
        },
        Takes::Types(tys) => match tys.split_first() {
            Some(((conv, ty), rest)) => Some((*conv, ty, Takes::Types(rest))),
            None => None,
        },
    }
}

pub(crate) fn written_result<'t>(returned: &'t Option<Boxed<Ty>>) -> Option<&'t Ty>
    ensures { option_ty_by result ≡ typed returned.now }
{
    match returned {
        Some(ty) => Some(ty.get()),
        None => None,
    }
}

#[tactic(auto, using(crate::proofs::Opened::shape_opened, hv_tree::specs::declared::types::Ty::TheViews::the_lemmas), unfolding(crate::proofs::Opened::shape_of))]
pub(crate) fn written_shape<'t>(ty: &'t Ty) -> Shape<'t>
    ensures { shape_by result ≡ ty_by ty.now }
{
    match ty {
        Ty::Int(_) => Shape::Int,
        Ty::Bool(_) => Shape::Bool,
        Ty::Named(name) => Shape::Struct(name),
        Ty::Array(_, element) => Shape::Array(element.get()),
        Ty::Fun(_, params, result) => {
            Shape::Function(Takes::Types(params.as_slice()), written_result(result))
        }
    }
}

#[tactic(auto, using(crate::proofs::Opened::typed_meant))]
pub(crate) fn base_shape<'t>(base: Base<'t>) -> Shape<'t>
    ensures { shape_by result ≡ base_by base.entry }
{
    match base {
        Base::Int => Shape::Int,
        Base::Bool => Shape::Bool,
        Base::Struct(name) => Shape::Struct(name),
        Base::Written(ty) => written_shape(ty),
        Base::Function(params, result) => Shape::Function(Takes::Params(params), result.as_ref()),
    }
}
