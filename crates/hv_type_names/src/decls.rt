// Declarations, and the whole program.
ghost use Rattle.std.specs.Prelude.{◌≡◌, [], ◌++◌, map, OnOk, IfOk};
ghost use Rattle.std.specs.List.{list_any};
ghost use Rattle.hv_tree.specs.declared.ast.Decl.TheVariants as decls;
ghost use Rattle.hv_tree.specs.Core.{core_decl, core_field};
ghost use Rattle.hv_type_names.specs.Found as spec;

use crate::declared::declare;
use crate::program::Program;
use crate::types::{walk_fields, walk_option_ty, walk_params};
use crate::walk::walk_body;
use hv_items::Items;
use hv_symbols::Texts;
use hv_tree::{Decl, Field, FunDecl, Name, Place, Refusal, Rule};
use std::alloc::{AllocError as NoMemory, Global};

fn decl_name(decl: &Decl) -> &Name
    ensures { result.now ≡ spec.decl_name (core_decl decl.now) }
{
    match decl {
        Decl::Struct(declared) => &declared.name,
        Decl::Fun(function) => &function.name,
    }
}

fn note_struct<'a>(structs: &mut Texts<'a>, decl: &'a Decl) -> Result<(), NoMemory>
    ensures { OnOk result (structs.new ≡ structs.old ++ spec.struct_text (core_decl decl.now)) }
{
    match decl {
        Decl::Struct(declared) => structs.push(declared.name.text.as_str()),
        Decl::Fun(_) => Ok(()),
    }
}

/// What is known of the whole program; names that are declared twice are found.
fn survey<'a>(
    alloc: Global,
    found: &mut Vec<Refusal>,
    decls: &'a [Decl],
) -> Result<Program<'a>, NoMemory>
    ensures found { OnOk result (found.new.items ≡ found.old.items ++ spec.repeats_found [] (spec.decl_names (map core_decl decls.now))) }
    ensures program { IfOk result (λ p. p ≡ spec.program_of (map core_decl decls.now) 0) }
{
    let mut structs = Texts::new(alloc);
    let mut tops = Texts::new(alloc);
    let mut places = Items::new(alloc);
    for decl in decls {
        let name = decl_name(decl);
        declare(&mut tops, found, name)?;
        places.push(name.place)?;
        note_struct(&mut structs, decl)?;
    }
    Ok(Program {
        structs,
        tops,
        places,
        number: 0,
    })
}

// Fields may not repeat each other.
fn declare_fields<'a>(
    program: &Program<'a>,
    found: &mut Vec<Refusal>,
    fields: &'a [Field],
) -> Result<(), NoMemory>
    ensures { OnOk result (found.new.items ≡ found.old.items ++ spec.repeats_found [] (map spec.field_name (map core_field fields.now))) }
{
    let mut known = program.tops.empty();
    for field in fields {
        declare(&mut known, found, &field.name)?;
    }
    Ok(())
}

fn walk_decl<'a>(
    program: &Program<'a>,
    found: &mut Vec<Refusal>,
    decl: &'a Decl,
) -> Result<(), NoMemory>
    ensures { OnOk result (found.new.items ≡ found.old.items ++ spec.decl_found program.now (core_decl decl.now)) }
{
    match decl {
        Decl::Struct(declared) => {
            declare_fields(program, found, declared.fields.as_slice())?;
            walk_fields(program, found, declared.fields.as_slice())
        }
        Decl::Fun(function) => walk_fun(program, found, function),
    }
}

#[tactic(auto, using(hv_lemmas::proofs::Lists::three))]
fn walk_fun<'a>(
    program: &Program<'a>,
    found: &mut Vec<Refusal>,
    function: &'a FunDecl,
) -> Result<(), NoMemory>
    ensures { OnOk result (found.new.items ≡ found.old.items ++ spec.decl_found program.now (core_decl (decls.Fun function.now))) }
{
    walk_params(program, found, function.params.as_slice())?;
    walk_option_ty(program, found, &function.result)?;
    walk_body(
        program,
        found,
        &[],
        function.params.as_slice(),
        &function.body,
    )
}

fn walk_decls<'a>(
    program: Program<'a>,
    found: &mut Vec<Refusal>,
    decls: &'a [Decl],
) -> Result<(), NoMemory>
    ensures { OnOk result (found.new.items ≡ found.old.items ++ spec.decls_found program.entry 0 (map core_decl decls.now)) }
{
    let mut program = program;
    let mut number = 0;
    for decl in decls {
        program.number = number;
        walk_decl(&program, found, decl)?;
        number += 1;
    }
    Ok(())
}

fn is_main(decl: &Decl) -> bool
    ensures { result ≡ spec.is_main (core_decl decl.now) }
{
    match decl {
        Decl::Struct(_) => false,
        Decl::Fun(function) => match (function.params.as_slice(), &function.result) {
            ([], None) => function.name.text.as_str() == "main",
            _ => false,
        },
    }
}

fn has_main(decls: &[Decl]) -> bool
    ensures { result ≡ spec.has_main (map core_decl decls.now) }
{
    for decl in decls {
        if is_main(decl) {
            return true;
        }
    }
    false
}

// Without a `main` the program's beginning is refused.
fn note_main(found: &mut Vec<Refusal>, decls: &[Decl]) -> Result<(), NoMemory>
    ensures { OnOk result (found.new.items ≡ found.old.items ++ spec.main_found (map core_decl decls.now)) }
{
    if !has_main(decls) {
        found.push(Refusal {
            rule: Rule::N3,
            place: Place { start: 0 },
        })?;
    }
    Ok(())
}

/// Violations of the rules of names, none of which is before all of these.
#[tactic(auto, using(hv_lemmas::proofs::Lists::three))]
pub(crate) fn all_found(alloc: Global, decls: &[Decl]) -> Result<Vec<Refusal>, NoMemory>
    ensures { IfOk result (λ found. found.items ≡ spec.all_found (map core_decl decls.now)) }
{
    let mut found = Vec::new(alloc);
    let program = survey(alloc, &mut found, decls)?;
    walk_decls(program, &mut found, decls)?;
    note_main(&mut found, decls)?;
    Ok(found)
}
