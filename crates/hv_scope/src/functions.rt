ghost use Rattle.std.specs.Prelude.{◌≡◌, ◌++◌, ◌∷◌, [], map, IfOk};
ghost use Rattle.std.specs.List.{slice_get};
ghost use Rattle.std.specs.Option.{option_copied};
ghost use Rattle.hv_scope.specs.Tops.{fun_decls, first_by, name_of_fun};

use hv_items::Items;
use hv_symbols::Texts;
use hv_tree::{Decl, FunDecl};
use std::alloc::{AllocError as NoMemory, Global};
use std::marker::Model;

/// The functions of a program, in order.
#[derive(Drop)]
pub struct Functions<'t> {
    list: Items<&'t FunDecl>,
    names: Texts<'t>,
}

impl<'t> Model for Functions<'t> {
    ghost use Rattle.std.specs.Prelude.{◌≡◌, List, map};
    ghost use Rattle.std.specs.Coded.{codes};
    ghost use Rattle.hv_tree.specs.contracts.ast.Block as block;
    ghost use Rattle.hv_tree.specs.contracts.types.Ty as ty;
    ghost use Rattle.hv_tree.specs.declared.ast.FunDecl.{FunDecl};
    ghost use Rattle.hv_scope.specs.Tops.{name_of_fun};

    ghost Value = { List FunDecl };

    ghost coded = { Prim.hlevel (codes, ty.the_row.coded, block.the_row.coded) };

    ghost view = { λ f. map (λ d. d.now) f.list };

    ghost invariant = { λ f. f.names ≡ map name_of_fun (map (λ d. d.now) f.list) };
}

impl<'t> Functions<'t> {
    /// The functions among the declarations; of two with one name both count.
    pub fn of(alloc: Global, decls: &'t [Decl]) -> Result<Functions<'t>, NoMemory>
        ensures { IfOk result (λ f. f ≡ fun_decls decls.now) }
    {
        let mut list = Items::new(alloc);
        let mut names = Texts::new(alloc);
        for decl in decls {
            if let Decl::Fun(found) = decl {
                names.push(found.name.text.as_str())?;
                list.push(found)?;
            }
        }
        Ok(Functions { list, names })
    }

    fn get(&self, number: usize) -> Option<&'t FunDecl>
        ensures { option_copied result ≡ slice_get self.now number }
    {
        self.list.get(number).copied()
    }

    /// The first one with the name.
    pub fn find(&self, text: &str) -> Option<&'t FunDecl>
        ensures { option_copied result ≡ first_by name_of_fun self.now text.now }
    {
        match self.names.find(text) {
            Some(number) => self.get(number),
            None => None,
        }
    }
}
