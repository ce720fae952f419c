ghost use Rattle.std.specs.Prelude.{◌≡◌, ◌-◌, [], ◌∷◌, ◌++◌, length, take, OnOk};
ghost use Rattle.hv_symbols.specs.Texts.{index_of, has};

use std::alloc::{AllocError as NoMemory, Global};
use std::collections::HashMap;
use std::marker::Model;

/// A list of texts. A text is found by its hash, not by a scan.
#[derive(Drop)]
pub struct Texts<'a> {
    alloc: Global,
    list: Vec<&'a str>,
    firsts: HashMap<&'a str, usize>,
}

impl<'a> Model for Texts<'a> {
    ghost use Rattle.std.specs.Prelude.{◌≡◌, ℕ, List, map};
    ghost use Rattle.std.specs.HashMap.{get_by};
    ghost use Rattle.std.specs.Str.{bytes_eq};
    ghost use Rattle.hv_symbols.specs.Texts.{index_of};

    ghost Value = { List (List ℕ) };

    ghost view = { λ t. map (λ s. s.now) t.list.items };

    ghost invariant = { λ t. (text : List ℕ) → get_by (λ k. bytes_eq text k.now) t.firsts ≡ index_of (map (λ s. s.now) t.list.items) text };
}

impl<'a> Texts<'a> {
    /// An empty list, which takes no memory.
    pub fn new(alloc: Global) -> Texts<'a>
        ensures { result ≡ [] }
    {
        Texts {
            alloc,
            list: Vec::new(alloc),
            firsts: HashMap::new(alloc),
        }
    }

    /// An empty list over the same memory.
    pub fn empty(&self) -> Texts<'a>
        ensures { result ≡ [] }
    {
        Texts::new(self.alloc)
    }

    /// How many texts there are; one that stands twice counts twice.
    pub fn len(&self) -> usize
        ensures { result ≡ length self.now }
    {
        self.list.len()
    }

    /// The place of the first such text, counted from 0.
    pub fn find(&self, text: &str) -> Option<usize>
        ensures { result ≡ index_of self.now text.now }
    {
        self.firsts.get(text).copied()
    }

    /// Whether the text is there, by its hash.
    pub fn has(&self, text: &str) -> bool
        ensures { result ≡ has self.now text.now }
    {
        self.find(text).is_some()
    }

    /// Adds a text at the end.
    pub fn push(&mut self, text: &'a str) -> Result<(), NoMemory>
        ensures { OnOk result (self.new ≡ self.old ++ text.now ∷ []) }
    {
        let place = self.list.len();
        self.list.push(text)?;
        if self.firsts.contains_key(text) {
            return Ok(());
        }
        match self.firsts.insert(text, place) {
            Ok(_) => Ok(()),
            Err(_) => {
                self.list.pop();
                Err(NoMemory)
            }
        }
    }

    /// Keeps the first ones. It takes time for each that goes.
    pub fn shorten(&mut self, len: usize)
        ensures { self.new ≡ take len self.old }
    {
        while self.list.len() > len {
            self.pop();
        }
    }

    // Takes away the last one.
    fn pop(&mut self)
        ensures { self.new ≡ take (length self.old - 1) self.old }
    {
        let Some(text) = self.list.pop() else {
            return;
        };
        let place = self.list.len();
        if self.firsts.get(text).copied() == Some(place) {
            self.firsts.remove(text);
        }
    }
}
