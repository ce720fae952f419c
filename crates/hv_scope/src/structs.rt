ghost use Rattle.std.specs.Prelude.{◌≡◌, ◌++◌, ◌∷◌, [], map, IfOk};
ghost use Rattle.std.specs.Option.{option_copied};
ghost use Rattle.hv_tree.specs.Core.{core_field};
ghost use Rattle.hv_decls.specs.Types.{field_from};
ghost use Rattle.hv_symbols.specs.Texts.{index_of};
ghost use Rattle.hv_scope.specs.Known.{field_found};
ghost use Rattle.hv_scope.specs.Tops.{field_text, fields_at, name_of_struct, struct_decls};
ghost use Rattle.std.specs.List.{slice_get};

use hv_items::Items;
use hv_symbols::Texts;
use hv_tree::{Decl, Field, StructDecl, Ty};
use std::alloc::{AllocError as NoMemory, Global};
use std::marker::Model;

/// The structs of a program, in order.
#[derive(Drop)]
pub struct Structs<'t> {
    list: Items<&'t StructDecl>,
    names: Texts<'t>,
    fields: Items<Texts<'t>>,
}

impl<'t> Model for Structs<'t> {
    ghost use Rattle.std.specs.Prelude.{◌≡◌, List, map};
    ghost use Rattle.std.specs.Coded.{codes};
    ghost use Rattle.hv_tree.specs.contracts.types.Ty as ty;
    ghost use Rattle.hv_tree.specs.declared.ast.StructDecl.{StructDecl};
    ghost use Rattle.hv_scope.specs.Tops.{field_texts, name_of_struct};

    ghost Value = { List StructDecl };

    ghost coded = { Prim.hlevel (codes, ty.the_row.coded) };

    ghost view = { λ s. map (λ d. d.now) s.list };

    ghost invariant = { λ s. (s.names ≡ map name_of_struct (map (λ d. d.now) s.list)) × (s.fields ≡ map field_texts (map (λ d. d.now) s.list)) };
}

fn field_names<'t>(alloc: Global, fields: &'t [Field]) -> Result<Texts<'t>, NoMemory>
    ensures { IfOk result (λ t. t ≡ map field_text fields.now) }
{
    let mut names = Texts::new(alloc);
    for field in fields {
        names.push(field.name.text.as_str())?;
    }
    Ok(names)
}

fn find_named<'t>(
    names: &Texts<'t>,
    fields: &'t Items<Field>,
    text: &str,
) -> Option<(usize, &'t Ty)>
    requires names { names.now ≡ map field_text fields.now }
    ensures { field_found result ≡ field_from 0 (map core_field fields.now) text.now }
{
    match names.find(text) {
        Some(place) => match fields.get(place) {
            Some(field) => Some((place, &field.ty)),
            None => None,
        },
        None => None,
    }
}

impl<'t> Structs<'t> {
    /// The structs among the declarations; of two with one name both count.
    pub fn of(alloc: Global, decls: &'t [Decl]) -> Result<Structs<'t>, NoMemory>
        ensures { IfOk result (λ s. s ≡ struct_decls decls.now) }
    {
        let mut list = Items::new(alloc);
        let mut names = Texts::new(alloc);
        let mut fields = Items::new(alloc);
        for decl in decls {
            if let Decl::Struct(found) = decl {
                names.push(found.name.text.as_str())?;
                fields.push(field_names(alloc, found.fields.as_slice())?)?;
                list.push(found)?;
            }
        }
        Ok(Structs {
            list,
            names,
            fields,
        })
    }

    /// Lends them in the order of their declarations, by which they are numbered.
    pub fn as_slice(&self) -> &[&'t StructDecl]
        ensures { map (λ d. d.now) result.now ≡ self.now }
    {
        self.list.as_slice()
    }

    /// The number of the first one with the name.
    pub fn find(&self, text: &str) -> Option<usize>
        ensures { result ≡ index_of (map name_of_struct self.now) text.now }
    {
        self.names.find(text)
    }

    /// The struct with this number, counted from 0.
    pub fn get(&self, number: usize) -> Option<&'t StructDecl>
        ensures { option_copied result ≡ slice_get self.now number }
    {
        self.list.get(number).copied()
    }

    /// The number and the type of a field of the struct with this number.
    pub fn find_field(&self, number: usize, text: &str) -> Option<(usize, &'t Ty)>
        ensures { field_found result ≡ field_from 0 (map core_field (fields_at number self.now)) text.now }
    {
        let Some(found) = self.get(number) else {
            return None;
        };
        let Some(names) = self.fields.get(number) else {
            return None;
        };
        find_named(names, &found.fields, text)
    }
}
