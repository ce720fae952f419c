ghost use Rattle.std.specs.Prelude.{◌≡◌, ◌++◌, map, IfOk, OnOk, string_bytes};
ghost use Rattle.hv_tree.specs.declared.ast.Decl.TheVariants as decl;
ghost use Rattle.hv_tree.specs.Core.{core_field, core_decl};
ghost use Rattle.hv_tree.specs.Printed.{Printed, fields_text, decl_text, decls_text};

use crate::statements::push_block;
use crate::types::{push_name, push_signature, push_typed};
use hv_tree::{Decl, Field, FunDecl, StructDecl, Tree};
use std::alloc::{AllocError as NoMemory, Global};

fn push_fields(out: &mut String, fields: &[Field]) -> Result<(), NoMemory>
    ensures { OnOk result (string_bytes out.new ≡ string_bytes out.old ++ fields_text (map core_field fields.now)) }
{
    for field in fields {
        out.push_str("  var ")?;
        push_typed(out, &field.name, &field.ty)?;
        out.push_str("\n")?;
    }
    Ok(())
}

fn push_struct(out: &mut String, declared: &StructDecl) -> Result<(), NoMemory>
    ensures { OnOk result (string_bytes out.new ≡ string_bytes out.old ++ decl_text (core_decl (decl.Struct declared.now))) }
{
    out.push_str("struct ")?;
    push_name(out, &declared.name)?;
    out.push_str(" {\n")?;
    push_fields(out, declared.fields.as_slice())?;
    out.push_str("}\n")
}

#[tactic(auto, using(crate::proofs::Parts::fun_text))]
fn push_fun(out: &mut String, declared: &FunDecl) -> Result<(), NoMemory>
    ensures { OnOk result (string_bytes out.new ≡ string_bytes out.old ++ decl_text (core_decl (decl.Fun declared.now))) }
{
    out.push_str("fun ")?;
    push_name(out, &declared.name)?;
    push_signature(out, declared.params.as_slice(), &declared.result)?;
    push_block(out, 0, &declared.body)?;
    out.push_str("\n")
}

fn push_decl(out: &mut String, decl: &Decl) -> Result<(), NoMemory>
    ensures { OnOk result (string_bytes out.new ≡ string_bytes out.old ++ decl_text (core_decl decl.now)) }
{
    match decl {
        Decl::Struct(declared) => push_struct(out, declared),
        Decl::Fun(declared) => push_fun(out, declared),
    }
}

fn push_decls(out: &mut String, decls: &[Decl]) -> Result<(), NoMemory>
    ensures { OnOk result (string_bytes out.new ≡ string_bytes out.old ++ decls_text (map core_decl decls.now)) }
{
    for decl in decls {
        push_decl(out, decl)?;
    }
    Ok(())
}

/// The printed form of a program. It takes time in the length of what it writes, and recurses only
/// into brackets and blocks.
pub fn print(alloc: Global, tree: &Tree) -> Result<Vec<u8>, NoMemory>
    ensures { IfOk result (λ bytes. bytes.items ≡ Printed tree.now) }
{
    let mut out = String::new(alloc);
    push_decls(&mut out, tree.decls.as_slice())?;
    Ok(out.into_bytes())
}
