// The locals that the text of a body shows to have a value.
ghost use Rattle.std.specs.Prelude.{◌≡◌, [], ◌∷◌, nat_lt, reverse, OnOk};
ghost use Rattle.hv_init_needs.specs.Sight.{declared_before};
ghost use Rattle.hv_init_needs.specs.Needs.{is_in};
ghost use Rattle.hv_init_needs.specs.Ordered as spec;

use hv_items::Items;
use std::alloc::{AllocError as NoMemory, Global};
use std::marker::Model;

/// The locals in sight, which contracts see as a list with the newest first.
#[derive(Drop)]
pub struct Sight {
    // The newest last.
    list: Items<u32>,
}

impl Model for Sight {
    ghost use Rattle.std.specs.Prelude.{ℕ, List, reverse};
    ghost use Rattle.hv_init_needs.specs.Ordered.{Falls};

    ghost Value = { List ℕ };

    ghost view = { λ s. reverse s.list };

    ghost invariant = { λ s. Falls (reverse s.list) };
}

// Drops the locals from this one on.
#[tactic(auto, using(crate::proofs::Falling::last_stays, crate::proofs::Falling::last_goes, crate::proofs::Falling::others_fall))]
fn drop_from(list: &mut Items<u32>, from: u32)
    requires falls { spec.Falls (reverse list.old) }
    ensures { reverse list.new ≡ declared_before from (reverse list.old) }
{
    while let Some(newest) = list.as_slice().last() {
        if *newest < from {
            return;
        }
        list.pop();
    }
}

// Whether what a search finds is this local.
fn is_that(there: Option<u32>, k: u32) -> bool
    ensures { result ≡ spec.is_that there k }
{
    match there {
        Some(n) => n == k,
        None => false,
    }
}

impl Sight {
    /// No local, which takes no memory.
    pub fn new(alloc: Global) -> Sight
        ensures { result ≡ [] }
    {
        Sight {
            list: Items::new(alloc),
        }
    }

    /// The locals from this one on go out of sight, in time in proportion to their number.
    #[tactic(auto, using(crate::proofs::Falling::rest_falls))]
    pub fn end_from(&mut self, from: u32)
        ensures { self.new ≡ declared_before from self.old }
    {
        drop_from(&mut self.list, from);
    }

    /// Local n comes into sight, in place of those from it on.
    #[tactic(auto, using(crate::proofs::Falling::newest_last, crate::proofs::Falling::more_fall))]
    pub fn give(&mut self, n: u32) -> Result<(), NoMemory>
        ensures { OnOk result (self.new ≡ n ∷ declared_before n self.old) }
    {
        drop_from(&mut self.list, n);
        self.list.push(n)
    }

    /// Whether a local is in sight, in time in proportion to the logarithm of their number.
    pub fn sees(&self, k: u32) -> bool
        ensures { result ≡ is_in self.now k }
    {
        let at = self.list.as_slice().partition_point(
            |n: &u32| -> bool
                ensures { result ≡ nat_lt n.now k }
            { *n < k },
        );
        is_that(self.list.get(at).copied(), k)
    }
}
