// Which locals have cells, and how many of those come before each.
ghost use Rattle.std.specs.Prelude.{◌≡◌, map, IfOk};
ghost use Rattle.hv_scope.specs.Known.{local_by};
ghost use Rattle.hv_init_cells.specs.Plain.{kept, kept_before};
ghost use Rattle.hv_init_layout.specs.Tracked as spec;

use crate::ends::sum;
use hv_items::Items;
use hv_scope::Known;
use std::alloc::{AllocError as NoMemory, Global};
use std::marker::Model;

/// Which locals have cells; contracts see a flag for each.
#[derive(Drop)]
pub struct Tracked {
    flags: Items<bool>,
    /// How many that have cells come before each local, and behind all of them.
    counts: Items<u32>,
}

impl Model for Tracked {
    ghost use Rattle.std.specs.Prelude.{◌≡◌, Bool, List};
    ghost use Rattle.hv_init_layout.specs.Tracked.{counts_from};

    ghost Value = { List Bool };

    ghost view = { λ t. t.flags };

    ghost invariant = { λ t. t.counts ≡ counts_from 0 t.flags };
}

fn counts_of(alloc: Global, flags: &[bool]) -> Result<Items<u32>, NoMemory>
    ensures { IfOk result (λ counts. counts ≡ spec.counts_from 0 flags.now) }
{
    let mut counts = Items::new(alloc);
    let mut count = 0;
    for tracked in flags {
        counts.push(count)?;
        if *tracked {
            count = sum(count, 1)?;
        }
    }
    counts.push(count)?;
    Ok(counts)
}

impl Tracked {
    /// A flag for each local, in order. More than a `u32` counts are want of memory.
    pub fn of(alloc: Global, flags: Items<bool>) -> Result<Tracked, NoMemory>
        ensures { IfOk result (λ t. t ≡ flags) }
    {
        let counts = counts_of(alloc, flags.as_slice())?;
        Ok(Tracked { flags, counts })
    }

    /// Whether a local has cells.
    pub fn is_tracked(&self, local: u32) -> bool
        ensures { result ≡ spec.flag_at self.now local }
    {
        self.flags
            .as_slice()
            .get(local as usize)
            .copied()
            .unwrap_or(false)
    }

    /// How many that have cells come before a local.
    #[tactic(auto, using(crate::proofs::Tracking::counted, crate::proofs::Tracking::all_counted))]
    pub fn before(&self, local: u32) -> u32
        ensures { result ≡ kept_before (spec.flag_at self.now) local }
    {
        let local = local as usize;
        let count = self.flags.len();
        let at = if local < count { local } else { count };
        self.counts.as_slice().get(at).copied().unwrap_or(0)
    }
}

/// The locals that have cells.
pub fn kept_locals<'t>(
    alloc: Global,
    locals: &[Known<'t>],
    flags: &[bool],
) -> Result<Items<Known<'t>>, NoMemory>
    ensures { IfOk result (λ ls. map local_by ls ≡ kept (spec.flag_at flags.now) (map local_by locals.now)) }
{
    let mut found = Items::new(alloc);
    let mut left = locals;
    let mut left_flags = flags;
    while let [known, rest @ ..] = left {
        let [tracked, more @ ..] = left_flags else {
            break;
        };
        if *tracked {
            found.push(*known)?;
        }
        left = rest;
        left_flags = more;
    }
    Ok(found)
}
