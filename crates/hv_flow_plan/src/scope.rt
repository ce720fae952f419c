// A program, and the locals of a body in it.
ghost use Rattle.std.specs.Prelude.{◌≡◌};
ghost use Rattle.hv_decls.specs.Locals.{number_in, local_in};
ghost use Rattle.hv_scope.specs.Known.{found_number, found_local};
ghost use Rattle.hv_flow_plan.specs.Scopes.{locals_in};

use hv_scope::{Declared, Known, Locals};
use hv_tree::Name;

/// A program, and the locals of a body in it.
#[derive(Clone, Copy)]
pub struct Scope<'s, 't> {
    pub declared: &'s Declared<'t>,
    pub locals: &'s Locals<'t>,
}

/// The local with this name, and its number.
pub fn find<'s, 't>(scope: &Scope<'s, 't>, name: &Name) -> Option<(usize, Known<'t>)>
    ensures number { found_number result ≡ number_in (locals_in scope.now) name.now.text }
    ensures local { found_local result ≡ local_in (locals_in scope.now) name.now.text }
{
    scope.locals.find(name.text.as_str())
}
