// What an event refuses, where accesses are open.
ghost use Rattle.std.specs.Prelude.{◌≡◌, map};
ghost use Rattle.hv_excl.specs.Access.{access_by, entry_by, mode_by};
ghost use Rattle.hv_excl.specs.Clashes as spec;

use crate::access::{AccessMode, Entry, OpenAccess, Opened};
use hv_decls::{StaticPath, overlap};
use hv_rules::FlowEvent;
use hv_tree::{Place, Refusal, Rule};

#[tactic(auto, using(crate::proofs::Clashing::overlap_of, crate::proofs::Clashing::overlap_to))]
fn may_share(a: &StaticPath, b: &StaticPath) -> bool
    ensures { result ≡ spec.overlaps a.now b.now }
{
    overlap(a, b)
}

fn counts(reading: bool, mode: AccessMode) -> bool
    ensures { result ≡ spec.counts reading (mode_by mode) }
{
    match mode {
        AccessMode::Reading => reading,
        AccessMode::Writing | AccessMode::Setting => true,
    }
}

fn clash(access: &OpenAccess<'_>, reading: bool, path: &StaticPath) -> bool
    ensures { result ≡ spec.clash reading path.now (access_by access.now) }
{
    counts(reading, access.mode) && may_share(path, access.path)
}

fn clash_among(entries: &[Entry<'_>], reading: bool, path: &StaticPath) -> bool
    ensures { result ≡ spec.clashes reading path.now (map entry_by entries.now) }
{
    for entry in entries {
        if clash(&entry.access, reading, path) {
            return true;
        }
    }
    false
}

// Whether the path overlaps an open access, one that only reads too if `reading` says so.
#[tactic(auto, using(crate::proofs::Stacks::clash_reversed))]
fn clashes(opened: &Opened<'_>, reading: bool, path: &StaticPath) -> bool
    ensures { result ≡ spec.clashes reading path.now opened.now }
{
    clash_among(opened.entries(), reading, path)
}

fn change(opened: &Opened<'_>, path: &StaticPath, place: Place) -> Option<Refusal>
    ensures { result ≡ spec.change_refused path.now place opened.now }
{
    if clashes(opened, true, path) {
        Some(Refusal {
            rule: Rule::X1,
            place,
        })
    } else {
        None
    }
}

fn read(opened: &Opened<'_>, path: &StaticPath, place: Place) -> Option<Refusal>
    ensures { result ≡ spec.read_refused path.now place opened.now }
{
    if clashes(opened, false, path) {
        Some(Refusal {
            rule: Rule::X2,
            place,
        })
    } else {
        None
    }
}

fn init(
    opened: &Opened<'_>,
    binding: Option<u32>,
    path: &StaticPath,
    place: Place,
) -> Option<Refusal>
    ensures { result ≡ spec.init_refused binding path.now place opened.now }
{
    match binding {
        None => change(opened, path, place),
        Some(_) => None,
    }
}

/// What an event that belongs to this binding, or to none, refuses.
pub fn refused_at(
    opened: &Opened<'_>,
    event: &FlowEvent,
    binding: Option<u32>,
    place: Place,
) -> Option<Refusal>
    ensures { result ≡ spec.refused_at event.now binding place opened.now }
{
    match event {
        FlowEvent::Init(path) => init(opened, binding, path, place),
        FlowEvent::Use(path) | FlowEvent::OpenRead(path) => read(opened, path, place),
        FlowEvent::Move(path) | FlowEvent::OpenWrite(path) | FlowEvent::OpenSet(path) => {
            change(opened, path, place)
        }
        _ => None,
    }
}
