// Where in a program a run is.

use crate::program::Program;
use hv_scope::Locals;
use std::alloc::Global;

/// Where in a program a run is.
#[derive(Clone, Copy)]
pub struct Level<'a> {
    pub alloc: Global,
    pub program: &'a Program<'a>,
    /// Those of the body that runs.
    pub locals: &'a Locals<'a>,
    /// How many further activations may be entered.
    pub left: u32,
    /// How deep parts may still nest; where it is 0, want of memory is answered.
    pub nesting: u64,
}
