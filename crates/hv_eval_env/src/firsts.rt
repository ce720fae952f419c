// Numbers in a list, in which the first place of each is found at once.
ghost use Rattle.std.specs.Prelude.{◌≡◌, [], ◌∷◌, ◌++◌, OnOk};
ghost use Rattle.hv_eval_env.specs.Firsts.{first_place};

use std::alloc::{AllocError as NoMemory, Global};
use std::collections::HashMap;
use std::marker::Model;

/// A list of numbers.
#[derive(Drop)]
pub struct Firsts {
    list: Vec<u32>,
    places: HashMap<u32, u32>,
}

impl Model for Firsts {
    ghost use Rattle.std.specs.Prelude.{◌≡◌, ℕ, List, nat_eq};
    ghost use Rattle.std.specs.HashMap.{get_by};
    ghost use Rattle.hv_eval_env.specs.Firsts.{first_place};

    ghost Value = { List ℕ };

    ghost view = { λ f. f.list.items };

    ghost invariant = { λ f. (number : ℕ) → get_by (nat_eq number) f.places ≡ first_place f.list.items number };
}

impl Firsts {
    /// No numbers yet.
    pub fn new(alloc: Global) -> Firsts
        ensures { result ≡ [] }
    {
        Firsts {
            list: Vec::new(alloc),
            places: HashMap::new(alloc),
        }
    }

    /// The place of the first such number, counted from 0.
    pub fn find(&self, number: u32) -> Option<u32>
        ensures { result ≡ first_place self.now number }
    {
        self.places.get(&number).copied()
    }

    /// Adds a number at the end. Where this fails, the list may be shorter than its numbers.
    pub fn push(&mut self, number: u32) -> Result<(), NoMemory>
        ensures { OnOk result (self.new ≡ self.old ++ number ∷ []) }
    {
        let Ok(place) = u32::try_from(self.list.len()) else {
            return Err(NoMemory);
        };
        self.list.push(number)?;
        if self.places.contains_key(&number) {
            return Ok(());
        }
        match self.places.insert(number, place) {
            Ok(_) => Ok(()),
            Err(_) => {
                self.list.pop();
                Err(NoMemory)
            }
        }
    }
}
