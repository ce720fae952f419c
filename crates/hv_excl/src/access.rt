// The accesses that are open, as a stack that knows the highest local that keeps one of them open.
ghost use Rattle.std.specs.Prelude.{◌≡◌, ◌∷◌, [], OnOk, MatchOption};
ghost use Rattle.hv_rules.specs.States as states;
ghost use Rattle.hv_excl.specs.Access as spec;

use hv_decls::StaticPath;
use hv_items::Items;
use std::alloc::{AllocError as NoMemory, Global};
use std::marker::Model;

/// What an access may do.
#[derive(Clone, Copy)]
pub enum AccessMode {
    Reading,
    Writing,
    Setting,
}

/// An open access, with the local that keeps it open, or none where a call does.
#[derive(Clone, Copy)]
pub struct OpenAccess<'p> {
    pub path: &'p StaticPath,
    pub mode: AccessMode,
    pub binding: Option<u32>,
}

/// An open access, with the highest local that keeps an older one open.
#[derive(Clone, Copy)]
pub(crate) struct Entry<'p> {
    pub(crate) access: OpenAccess<'p>,
    below: Option<u32>,
}

/// Open accesses, which contracts see as a list with the newest first. Whether a local from one on keeps one of
/// them open is known without a look at all of them.
#[derive(Drop)]
pub struct Opened<'p> {
    // The newest last.
    entries: Items<Entry<'p>>,
    // The highest local that keeps one of them open.
    highest: Option<u32>,
}

impl<'p> Model for Opened<'p> {
    ghost use Rattle.std.specs.Prelude.{List, reverse};
    ghost use Rattle.hv_rules.specs.States.{Access};
    ghost use Rattle.hv_excl.specs.Access.{accesses_by, Told};

    ghost Value = { List Access };

    ghost view = { λ o. accesses_by o.entries };

    ghost invariant = { λ o. Told o.highest (reverse o.entries) };
}

// The higher one of two locals, where there are any.
fn higher(a: Option<u32>, b: Option<u32>) -> Option<u32>
    ensures { result ≡ spec.higher a b }
{
    match (a, b) {
        (Some(n), Some(m)) => Some(n.max(m)),
        (Some(n), None) => Some(n),
        (None, other) => other,
    }
}

impl<'p> Opened<'p> {
    /// No access, which takes no memory.
    pub fn new(alloc: Global) -> Opened<'p>
        ensures { result ≡ [] }
    {
        Opened {
            entries: Items::new(alloc),
            highest: None,
        }
    }

    // The newest last.
    pub(crate) fn entries(&self) -> &[Entry<'p>]
        ensures { spec.accesses_by result.now ≡ self.now }
    {
        self.entries.as_slice()
    }

    // The highest local that keeps one of them open.
    #[tactic(auto, using(crate::proofs::Stacks::told_highest))]
    pub(crate) fn highest(&self) -> Option<u32>
        ensures { result ≡ spec.highest self.now }
    {
        self.highest
    }

    #[tactic(auto, using(crate::proofs::Stacks::newest_last, crate::proofs::Stacks::told_more))]
    pub(crate) fn push(&mut self, access: OpenAccess<'p>) -> Result<(), NoMemory>
        ensures { OnOk result (self.new ≡ spec.access_by access.entry ∷ self.old) }
    {
        let below = self.highest;
        self.entries.push(Entry { access, below })?;
        self.highest = higher(access.binding, below);
        Ok(())
    }

    #[tactic(auto, using(crate::proofs::Stacks::newest_last, crate::proofs::Stacks::told_less))]
    pub(crate) fn pop(&mut self) -> Option<OpenAccess<'p>>
        ensures { MatchOption result ((self.old ≡ []) × (self.new ≡ [])) (λ newest. self.old ≡ spec.access_by newest ∷ self.new) }
    {
        let Entry { access, below } = self.entries.pop()?;
        self.highest = below;
        Some(access)
    }

    /// Of the accesses of calls the newest.
    pub fn last_called(&self) -> Option<OpenAccess<'p>>
        ensures { spec.found_by result ≡ states.last_called self.now }
    {
        last_called(self.entries.as_slice())
    }
}

fn last_called<'p>(entries: &[Entry<'p>]) -> Option<OpenAccess<'p>>
    ensures { spec.found_by result ≡ states.last_called (spec.accesses_by entries.now) }
{
    for at in (0..entries.len()).rev() {
        let access = entries[at].access;
        if access.binding.is_none() {
            return Some(access);
        }
    }
    None
}
