// The structs of a program by number, each with the structs that its fields are.
ghost use Rattle.std.specs.Prelude.{◌≡◌, map, IfOk};
ghost use Rattle.hv_tree.specs.Core.{core_tree, core_ty, core_field};
ghost use Rattle.hv_decls.specs.Types.{meant, type_of_field};
ghost use Rattle.hv_scope.specs.Known.{local_by};
ghost use Rattle.hv_init_leaves.specs.Table as spec;

use hv_items::Items;
use hv_scope::{Declared, Known};
use hv_tree::{Field, Ty};
use std::alloc::{AllocError as NoMemory, Global};

#[tactic(auto, using(crate::proofs::Opened::number_opened, hv_tree::specs::declared::types::Ty::TheViews::the_lemmas), unfolding(crate::proofs::Opened::number_by_layer))]
fn number_of(declared: &Declared<'_>, ty: &Ty) -> Option<usize>
    ensures { result ≡ spec.number_of (core_tree declared.now) (meant (core_ty ty.now)) }
{
    match ty {
        Ty::Int(_) => None,
        Ty::Bool(_) => None,
        Ty::Named(name) => declared.struct_number(name.text.as_str()),
        Ty::Array(_, _) => None,
        Ty::Fun(_, _, _) => None,
    }
}

fn local_number(declared: &Declared<'_>, local: &Known<'_>) -> Option<usize>
    ensures { result ≡ spec.number_by (core_tree declared.now) (local_by local.now).ty }
{
    match local.ty {
        Some(ty) => number_of(declared, ty),
        None => None,
    }
}

/// The struct that each local is.
pub(crate) fn numbers_of(
    alloc: Global,
    declared: &Declared<'_>,
    locals: &[Known<'_>],
) -> Result<Items<Option<usize>>, NoMemory>
    ensures { IfOk result (λ numbers. numbers ≡ map (spec.local_number (core_tree declared.now)) (map local_by locals.now)) }
{
    let mut numbers = Items::new(alloc);
    for local in locals {
        numbers.push(local_number(declared, local))?;
    }
    Ok(numbers)
}

fn row_of(
    alloc: Global,
    declared: &Declared<'_>,
    fields: &[Field],
) -> Result<Items<Option<usize>>, NoMemory>
    ensures { IfOk result (λ row. row ≡ map (spec.number_of (core_tree declared.now)) (map type_of_field (map core_field fields.now))) }
{
    let mut row = Items::new(alloc);
    for field in fields {
        row.push(number_of(declared, &field.ty))?;
    }
    Ok(row)
}

/// The struct that each field is, of each struct.
pub(crate) fn table_of(
    alloc: Global,
    declared: &Declared<'_>,
) -> Result<Items<Items<Option<usize>>>, NoMemory>
    ensures { IfOk result (λ table. table ≡ spec.table_of (core_tree declared.now)) }
{
    let mut table = Items::new(alloc);
    for found in declared.structs() {
        table.push(row_of(alloc, declared, found.fields.as_slice())?)?;
    }
    Ok(table)
}
