ghost use Rattle.std.specs.Prelude.{◌≡◌, map, IfOk};
ghost use Rattle.hv_decls.specs.Locals.{number_in, local_in};
ghost use Rattle.hv_scope.specs.Known.{found_number, found_local, local_by};

use crate::known::Known;
use hv_items::Items;
use hv_symbols::Texts;
use std::alloc::{AllocError as NoMemory, Global};
use std::marker::Model;

/// The locals of a body in the order of their declarations.
#[derive(Drop)]
pub struct Locals<'t> {
    list: Items<Known<'t>>,
    names: Texts<'t>,
}

impl<'t> Model for Locals<'t> {
    ghost use Rattle.std.specs.Prelude.{◌≡◌, List, map};
    ghost use Rattle.std.specs.Coded.{codes};
    ghost use Rattle.hv_tree.specs.contracts.types.Ty as ty;
    ghost use Rattle.hv_scope.specs.declared.known.Known.{Known};
    ghost use Rattle.hv_scope.specs.Known.{text_of};

    ghost Value = { List Known };

    ghost coded = { Prim.hlevel (codes, ty.the_row.coded) };

    ghost view = { λ l. l.list };

    ghost invariant = { λ l. l.names ≡ map text_of l.list };
}

impl<'t> Locals<'t> {
    /// Finds by name among these locals.
    pub fn of(alloc: Global, list: Vec<Known<'t>>) -> Result<Locals<'t>, NoMemory>
        ensures { IfOk result (λ l. l ≡ list.entry.items) }
    {
        let mut names = Texts::new(alloc);
        for known in list.as_slice() {
            names.push(known.name.text.as_str())?;
        }
        Ok(Locals {
            list: Items::from_vec(list),
            names,
        })
    }

    /// Lends them in the order of their declarations, by which they are numbered.
    pub fn as_slice(&self) -> &[Known<'t>]
        ensures { result.now ≡ self.now }
    {
        self.list.as_slice()
    }

    /// The number of the first local with the name, and the local.
    #[tactic(auto, using(crate::proofs::Places::local_placed, crate::proofs::Places::number_placed))]
    pub fn find(&self, text: &str) -> Option<(usize, Known<'t>)>
        ensures number { found_number result ≡ number_in (map local_by self.now) text.now }
        ensures local { found_local result ≡ local_in (map local_by self.now) text.now }
    {
        match self.names.find(text) {
            Some(number) => match self.list.get(number) {
                Some(known) => Some((number, *known)),
                None => None,
            },
            None => None,
        }
    }
}
