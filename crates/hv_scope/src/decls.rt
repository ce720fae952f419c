ghost use Rattle.std.specs.Prelude.{◌≡◌, map, IfOk};
ghost use Rattle.std.specs.Option.{option_copied};
ghost use Rattle.hv_tree.specs.Core.{core_tree};
ghost use Rattle.hv_decls.specs.Types.{field_from, fields_or_none, fun_in, struct_in};
ghost use Rattle.hv_scope.specs.Known.{core_struct, field_found, option_function, option_struct};
ghost use Rattle.hv_scope.specs.Tops.{structs_in, struct_number};

use crate::functions::Functions;
use crate::structs::Structs;
use hv_tree::{FunDecl, StructDecl, Tree, Ty};
use std::alloc::{AllocError as NoMemory, Global};
use std::marker::Model;

/// A program whose structs, fields and functions are found by name. The first one with a name counts.
#[derive(Drop)]
pub struct Declared<'t> {
    tree: &'t Tree,
    structs: Structs<'t>,
    functions: Functions<'t>,
}

impl<'t> Model for Declared<'t> {
    ghost use Rattle.std.specs.Prelude.{◌≡◌};
    ghost use Rattle.std.specs.Coded.{codes};
    ghost use Rattle.hv_tree.specs.contracts.ast.Block as block;
    ghost use Rattle.hv_tree.specs.contracts.types.Ty as ty;
    ghost use Rattle.hv_tree.specs.declared.ast.Tree.{Tree};
    ghost use Rattle.hv_scope.specs.Tops.{fun_decls, struct_decls};

    ghost Value = { Tree };

    ghost coded = { Prim.hlevel (codes, ty.the_row.coded, block.the_row.coded) };

    ghost view = { λ d. d.tree.now };

    ghost invariant = { λ d. (d.structs ≡ struct_decls d.tree.now.decls) × (d.functions ≡ fun_decls d.tree.now.decls) };
}

impl<'t> Declared<'t> {
    /// The tree is only lent; memory goes to what names are found by. Names that stand twice are no error here.
    pub fn new(alloc: Global, tree: &'t Tree) -> Result<Declared<'t>, NoMemory>
        ensures { IfOk result (λ d. d ≡ tree.now) }
    {
        Ok(Declared {
            tree,
            structs: Structs::of(alloc, tree.decls.as_slice())?,
            functions: Functions::of(alloc, tree.decls.as_slice())?,
        })
    }

    /// All structs, in order.
    pub fn structs(&self) -> &[&'t StructDecl]
        ensures { map (λ d. core_struct d.now) result.now ≡ structs_in (core_tree self.now).decls }
    {
        self.structs.as_slice()
    }

    /// The number of a struct among all structs.
    pub fn struct_number(&self, text: &str) -> Option<usize>
        ensures { result ≡ struct_number (core_tree self.now).decls text.now }
    {
        self.structs.find(text)
    }

    /// The first struct with the name.
    pub fn find_struct(&self, text: &str) -> Option<&'t StructDecl>
        ensures { option_struct (option_copied result) ≡ struct_in (core_tree self.now).decls text.now }
    {
        match self.structs.find(text) {
            Some(number) => self.structs.get(number),
            None => None,
        }
    }

    /// The number and the type of a field.
    pub fn find_field(&self, of: &str, text: &str) -> Option<(usize, &'t Ty)>
        ensures { field_found result ≡ field_from 0 (fields_or_none (struct_in (core_tree self.now).decls of.now)) text.now }
    {
        match self.structs.find(of) {
            Some(number) => self.structs.find_field(number, text),
            None => None,
        }
    }

    /// The first function with the name; a struct with the name isn't looked at.
    pub fn find_function(&self, text: &str) -> Option<&'t FunDecl>
        ensures { option_function (option_copied result) ≡ fun_in (core_tree self.now).decls text.now }
    {
        self.functions.find(text)
    }
}
