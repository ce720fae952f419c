// The bodies of all functions.
ghost use Rattle.std.specs.Prelude.{◌≡◌, ◌++◌, OnOk};
ghost use Rattle.hv_types.specs.Walked as walked;

use crate::here::Program;
use crate::walk::walk_block;
use hv_scope::visible_first;
use hv_tree::{Decl, FunDecl, Refusal};
use std::alloc::AllocError as NoMemory;

#[tactic(auto, using(crate::proofs::Walks::function_inside))]
fn walk_function<'t>(
    program: &Program<'_, 't>,
    found: &mut Vec<Refusal>,
    function: &'t FunDecl,
) -> Result<(), NoMemory>
    ensures { OnOk result (found.new.items ≡ found.old.items ++ walked.function_walked program.now function.now) }
{
    let mut visible = visible_first(program.alloc, &[], function.params.as_slice())?;
    walk_block(
        program,
        &mut visible,
        &function.result,
        found,
        &function.body,
    )
}

#[tactic(auto, using(crate::proofs::Walks::struct_nothing, crate::proofs::Walks::function_alone, hv_lemmas::proofs::Lists::nothing))]
fn walk_decl<'t>(
    program: &Program<'_, 't>,
    found: &mut Vec<Refusal>,
    decl: &'t Decl,
) -> Result<(), NoMemory>
    ensures { OnOk result (found.new.items ≡ found.old.items ++ walked.decl_walked program.now decl.now) }
{
    match decl {
        Decl::Fun(function) => walk_function(program, found, function),
        Decl::Struct(_) => Ok(()),
    }
}

/// What violates a rule of types in the bodies of these declarations.
pub(crate) fn walk_decls<'t>(
    program: &Program<'_, 't>,
    found: &mut Vec<Refusal>,
    decls: &'t [Decl],
) -> Result<(), NoMemory>
    ensures { OnOk result (found.new.items ≡ found.old.items ++ walked.decls_walked program.now decls.now) }
{
    for decl in decls {
        walk_decl(program, found, decl)?;
    }
    Ok(())
}
