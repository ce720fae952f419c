// A local, and what is known of its type.
ghost use Rattle.std.specs.Prelude.{◌≡◌, Some};
ghost use Rattle.std.specs.Option.{option_copied};
ghost use Rattle.hv_decls.specs.Locals.{value_of};
ghost use Rattle.hv_scope.specs.Known.{local_by, typed};

use hv_tree::{Conv, Name, Ty};

/// What declares a local.
#[derive(Clone, Copy)]
pub enum Kind {
    /// `a` in the `[a, b]` of a lambda.
    Captured,
    /// A parameter, with its convention.
    Passed(Conv),
    /// `var x: T`, with or without a value.
    Var,
    /// `let x: T = e`.
    Let,
    /// `inout x: T = &p`.
    Inout,
    /// `task h = spawn(e) f(x)`; its type, where one is written, is that of the task's result.
    Handle,
}

/// A local, as it is declared.
#[derive(Clone, Copy)]
pub struct Known<'t> {
    pub name: &'t Name,
    pub kind: Kind,
    pub ty: Option<&'t Ty>,
}

/// A visible local, and the place of the one that it hides.
#[derive(Clone, Copy)]
pub struct Entry<'t> {
    pub known: Known<'t>,
    pub hides: Option<usize>,
}

/// The type of a local that is a value.
pub fn value_type<'t>(known: &Known<'t>) -> Option<&'t Ty>
    ensures { typed (option_copied result) ≡ value_of (Some (local_by known.now)) }
{
    match known.kind {
        Kind::Handle => None,
        _ => known.ty,
    }
}
