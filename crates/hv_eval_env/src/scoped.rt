// A body with its locals.

use hv_scope::{Body, Locals};

/// A body, and its locals in the order of their declarations.
#[derive(Drop)]
pub struct Scoped<'t> {
    pub body: Body<'t>,
    pub locals: Locals<'t>,
}
