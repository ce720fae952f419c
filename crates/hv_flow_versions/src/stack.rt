ghost use Rattle.std.specs.Prelude.{◌≡◌, [], ◌∷◌, length, ◌↔◌, IsTrue, OnOk, OnErr};
ghost use Rattle.hv_flow_versions.specs.Stacks.{first_of, rest_of, with_first};

use std::alloc::{AllocError as NoMemory, Global};
use std::marker::Model;

/// A list whose first item is the last that was added.
#[derive(Drop)]
pub struct Stack<T> {
    list: Vec<T>,
}

impl<T> Model for Stack<T> {
    ghost use Rattle.std.specs.Prelude.{List, reverse};
    ghost use Rattle.std.specs.Coded.{coded_list};

    ghost Value = { List T };

    ghost coded = { coded_list T.code };

    ghost view = { λ s. reverse s.list.items };
}

impl<T> Stack<T> {
    /// An empty one, which takes no memory.
    pub fn new(alloc: Global) -> Stack<T>
        ensures { result ≡ [] }
    {
        Stack {
            list: Vec::new(alloc),
        }
    }

    /// How many items were added and not taken.
    #[tactic(auto, using(crate::proofs::Stacks::length_reversed))]
    pub fn len(&self) -> usize
        ensures { result ≡ length self.now }
    {
        self.list.len()
    }

    /// Takes the item that was added last.
    #[tactic(auto, using(hv_lemmas::proofs::Reversed::stacked))]
    pub fn pop(&mut self) -> Option<T>
        ensures first { result ≡ first_of self.old }
        ensures rest { self.new ≡ rest_of self.old }
    {
        self.list.pop()
    }
}

impl<T: Copy> Stack<T> {
    /// The item that was added last; it stays.
    #[tactic(auto, using(crate::proofs::Stacks::first_reversed, crate::proofs::Stacks::none_reversed))]
    pub fn top(&self) -> Option<T>
        ensures { result ≡ first_of self.now }
    {
        let len = self.list.len();
        if len == 0 {
            None
        } else {
            Some(self.list[len - 1])
        }
    }

    /// The item below the first.
    #[tactic(auto, using(crate::proofs::Stacks::second_reversed, crate::proofs::Stacks::no_second_reversed))]
    pub fn second(&self) -> Option<T>
        ensures { result ≡ first_of (rest_of self.now) }
    {
        let len = self.list.len();
        if len < 2 {
            None
        } else {
            Some(self.list[len - 2])
        }
    }
}

impl<T: Drop> Stack<T> {
    /// Adds an item. Without memory for it the item is dropped.
    #[tactic(auto, using(hv_lemmas::proofs::Reversed::stacked))]
    pub fn push(&mut self, item: T) -> Result<(), NoMemory>
        ensures ok { OnOk result (self.new ≡ item ∷ self.old) }
        ensures err { OnErr result (self.new ≡ self.old) }
    {
        self.list.push(item)?;
        Ok(())
    }

    /// Puts an item in the place of the last that was added.
    #[tactic(auto, using(crate::proofs::Stacks::set_reversed, crate::proofs::Stacks::none_reversed))]
    pub fn put(&mut self, item: T)
        ensures { self.new ≡ with_first item self.old }
    {
        let len = self.list.len();
        if len > 0 {
            self.list[len - 1] = item;
        }
    }
}
