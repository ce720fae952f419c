// The structs of a program by number, with the types of their fields.
ghost use Rattle.std.specs.Prelude.{◌≡◌, map, IfOk};
ghost use Rattle.hv_tree.specs.Core.{core_tree, core_ty, core_field};
ghost use Rattle.hv_decls.specs.Types.{meant, most_depth, type_of_field};
ghost use Rattle.hv_scope.specs.Tops.{struct_number};
ghost use Rattle.hv_types.specs.Table as spec;

use hv_items::Items;
use hv_scope::Declared;
use hv_tree::{Field, Name, Ty};
use std::alloc::{AllocError as NoMemory, Global};

/// A struct that is deeper is refused.
pub(crate) const MOST_DEPTH: usize = 100;

/// What arrays are around.
#[derive(Clone, Copy)]
pub enum FieldBase {
    Plain,
    Function,
    /// By its number.
    Struct(usize),
}

/// The type of a field.
#[derive(Clone, Copy)]
pub struct FieldType {
    /// At most so many as are refused.
    pub arrays: usize,
    pub base: FieldBase,
}

fn alone(base: FieldBase) -> FieldType
    ensures { result ≡ spec.alone base }
{
    FieldType { arrays: 0, base }
}

fn around(element: FieldType) -> FieldType
    ensures { result ≡ spec.around element }
{
    if element.arrays < MOST_DEPTH {
        FieldType {
            arrays: element.arrays + 1,
            base: element.base,
        }
    } else {
        element
    }
}

fn struct_named(declared: &Declared<'_>, name: &Name) -> FieldType
    ensures { result ≡ spec.by_number (struct_number (core_tree declared.now).decls name.now.text) }
{
    match declared.struct_number(name.text.as_str()) {
        Some(number) => alone(FieldBase::Struct(number)),
        None => alone(FieldBase::Plain),
    }
}

#[tactic(auto, using(crate::proofs::Entries::entry_opened, hv_tree::specs::declared::types::Ty::TheViews::the_lemmas), unfolding(crate::proofs::Entries::entry_by))]
fn field_type(declared: &Declared<'_>, ty: &Ty) -> FieldType
    ensures { result ≡ spec.entry_of (core_tree declared.now) (meant (core_ty ty.now)) }
{
    match ty {
        Ty::Int(_) => alone(FieldBase::Plain),
        Ty::Bool(_) => alone(FieldBase::Plain),
        Ty::Named(name) => struct_named(declared, name),
        Ty::Array(_, element) => around(field_type(declared, element.get())),
        Ty::Fun(_, _, _) => alone(FieldBase::Function),
    }
}

fn row(
    alloc: Global,
    declared: &Declared<'_>,
    fields: &[Field],
) -> Result<Items<FieldType>, NoMemory>
    ensures { IfOk result (λ row. row ≡ map (spec.entry_of (core_tree declared.now)) (map type_of_field (map core_field fields.now))) }
{
    let mut row = Items::new(alloc);
    for field in fields {
        row.push(field_type(declared, &field.ty))?;
    }
    Ok(row)
}

/// The fields of each struct.
pub(crate) fn rows_of(
    alloc: Global,
    declared: &Declared<'_>,
) -> Result<Items<Items<FieldType>>, NoMemory>
    ensures { IfOk result (λ rows. rows ≡ spec.table_of (core_tree declared.now)) }
{
    let mut rows = Items::new(alloc);
    for found in declared.structs() {
        rows.push(row(alloc, declared, found.fields.as_slice())?)?;
    }
    Ok(rows)
}
