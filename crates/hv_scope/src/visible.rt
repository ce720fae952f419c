ghost use Rattle.std.specs.Prelude.{◌≡◌, ◌∷◌, [], length, drop, map, OnOk};
ghost use Rattle.hv_decls.specs.Locals.{local_in};
ghost use Rattle.hv_scope.specs.Known.{local_by, option_local};
ghost use Rattle.hv_scope.specs.Oldest.{oldest};

use crate::known::{Entry, Known};
use hv_items::Items;
use std::alloc::{AllocError as NoMemory, Global};
use std::collections::HashMap;
use std::marker::Model;

/// The locals that are visible where a walk stands, the newest first. It hides those before it.
#[derive(Drop)]
pub struct Visible<'t> {
    list: Items<Entry<'t>>,
    newest: HashMap<&'t str, usize>,
}

impl<'t> Model for Visible<'t> {
    ghost use Rattle.std.specs.Prelude.{◌≡◌, ℕ, List, reverse};
    ghost use Rattle.std.specs.HashMap.{get_by};
    ghost use Rattle.std.specs.Str.{bytes_eq};
    ghost use Rattle.std.specs.Coded.{codes};
    ghost use Rattle.hv_tree.specs.contracts.types.Ty as ty;
    ghost use Rattle.hv_scope.specs.declared.known.Known.{Known};
    ghost use Rattle.hv_scope.specs.Entries.{Restores, place_of, seen};

    ghost Value = { List Known };

    ghost coded = { Prim.hlevel (codes, ty.the_row.coded) };

    ghost view = { λ v. seen (reverse v.list) };

    ghost invariant = { λ v. ((text : List ℕ) → get_by (λ k. bytes_eq text k.now) v.newest ≡ place_of (reverse v.list) text) × Restores (reverse v.list) };
}

impl<'t> Visible<'t> {
    /// No local is visible, which takes no memory.
    pub fn new(alloc: Global) -> Visible<'t>
        ensures { result ≡ [] }
    {
        Visible {
            list: Items::new(alloc),
            newest: HashMap::new(alloc),
        }
    }

    /// How many there are; one that is hidden counts too.
    pub fn len(&self) -> usize
        ensures { result ≡ length self.now }
    {
        self.list.len()
    }

    /// Declares a local, which hides an older one with its name.
    pub fn push(&mut self, known: Known<'t>) -> Result<(), NoMemory>
        ensures { OnOk result (self.new ≡ known.entry ∷ self.old) }
    {
        let text = known.name.text.as_str();
        let place = self.list.len();
        let hides = self.newest.get(text).copied();
        self.list.push(Entry { known, hides })?;
        match self.newest.insert(text, place) {
            Ok(_) => Ok(()),
            Err(_) => {
                self.list.pop();
                Err(NoMemory)
            }
        }
    }

    /// The newest one with the name.
    pub fn find(&self, text: &str) -> Option<Known<'t>>
        ensures { option_local result ≡ local_in (map local_by self.now) text.now }
    {
        match self.newest.get(text).copied() {
            Some(place) => match self.list.get(place) {
                Some(entry) => Some(entry.known),
                None => None,
            },
            None => None,
        }
    }

    /// Keeps the oldest ones. It takes time for each that goes.
    pub fn shorten(&mut self, len: usize)
        ensures { self.new ≡ oldest len self.old }
    {
        while self.list.len() > len {
            self.pop();
        }
    }

    // Takes away the newest one.
    fn pop(&mut self)
        ensures { self.new ≡ drop 1 self.old }
    {
        let Some(entry) = self.list.pop() else {
            return;
        };
        let text = entry.known.name.text.as_str();
        match entry.hides {
            // The name is there, so that this takes no memory.
            Some(place) => match self.newest.insert(text, place) {
                Ok(_) => (),
                Err(_) => (),
            },
            None => {
                self.newest.remove(text);
            }
        }
    }
}
