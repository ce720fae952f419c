// Which accesses are open behind an event.
ghost use Rattle.std.specs.Prelude.{◌≡◌, ◌++◌, map, IfOk};
ghost use Rattle.hv_rules.specs.States as states;
ghost use Rattle.hv_excl.specs.Access.{access_by, mode_by};
ghost use Rattle.hv_excl.specs.Clashes as spec;

use crate::access::{AccessMode, OpenAccess, Opened};
use hv_decls::StaticPath;
use hv_items::Items;
use hv_rules::FlowEvent;
use std::alloc::{AllocError as NoMemory, Global};

fn begin_access<'p>(
    opened: Opened<'p>,
    path: &'p StaticPath,
    mode: AccessMode,
    binding: Option<u32>,
) -> Result<Opened<'p>, NoMemory>
    ensures { IfOk result (λ now. now ≡ spec.opened_by path.now (mode_by mode) binding opened.entry) }
{
    let mut opened = opened;
    opened.push(OpenAccess {
        path,
        mode,
        binding,
    })?;
    Ok(opened)
}

// Of the accesses of calls the newest ends. Nothing newer is open where a call ends its own.
fn end_call<'p>(opened: Opened<'p>) -> Result<Opened<'p>, NoMemory>
    ensures { IfOk result (λ now. now ≡ states.closed opened.entry) }
{
    let mut opened = opened;
    let Some(newest) = opened.pop() else {
        return Ok(opened);
    };
    if newest.binding.is_none() {
        return Ok(opened);
    }
    let mut others = end_call(opened)?;
    others.push(newest)?;
    Ok(others)
}

fn stays(binding: Option<u32>, from: u32) -> bool
    ensures { result ≡ states.stays from binding }
{
    match binding {
        None => true,
        Some(local) => local < from,
    }
}

// Opens these again, the last one first.
#[tactic(auto, using(crate::proofs::Stacks::again))]
fn reopen<'p>(opened: Opened<'p>, kept: Items<OpenAccess<'p>>) -> Result<Opened<'p>, NoMemory>
    ensures { IfOk result (λ now. now ≡ map access_by kept.entry ++ opened.entry) }
{
    let mut opened = opened;
    let mut kept = kept;
    while let Some(access) = kept.pop() {
        opened.push(access)?;
    }
    Ok(opened)
}

// What the locals from this one on keep open ends. The newest are taken off while such an access is left, and those
// that stay are opened again; in the plan of a body there are none.
#[tactic(auto, using(crate::proofs::Stacks::keep, crate::proofs::Stacks::leave, crate::proofs::Stacks::all_stay))]
fn end_locals<'p>(alloc: Global, opened: Opened<'p>, from: u32) -> Result<Opened<'p>, NoMemory>
    ensures { IfOk result (λ now. now ≡ states.without_bindings from opened.entry) }
{
    let mut opened = opened;
    let mut kept = Items::new(alloc);
    while !stays(opened.highest(), from) {
        let Some(newest) = opened.pop() else {
            break;
        };
        if stays(newest.binding, from) {
            kept.push(newest)?;
        }
    }
    reopen(opened, kept)
}

/// The open accesses behind an event that belongs to this binding, or to none.
pub fn pass_event<'p>(
    alloc: Global,
    opened: Opened<'p>,
    event: &'p FlowEvent,
    binding: Option<u32>,
) -> Result<Opened<'p>, NoMemory>
    ensures { IfOk result (λ now. now ≡ spec.open_behind event.now binding opened.entry) }
{
    match event {
        FlowEvent::OpenRead(path) => begin_access(opened, path, AccessMode::Reading, binding),
        FlowEvent::OpenWrite(path) => begin_access(opened, path, AccessMode::Writing, binding),
        FlowEvent::OpenSet(path) => begin_access(opened, path, AccessMode::Setting, binding),
        FlowEvent::Close => end_call(opened),
        FlowEvent::ScopeEnd(from) => end_locals(alloc, opened, *from),
        _ => Ok(opened),
    }
}
