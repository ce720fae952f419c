// Which locals an event gives a value, empties, or asks for.
ghost use Rattle.std.specs.Prelude.{◌≡◌, OnOk};
ghost use Rattle.hv_init_needs.specs.Sight.{sight_behind};
ghost use Rattle.hv_init_needs.specs.Standings as spec;

use crate::sight::Sight;
use hv_decls::{StaticPath, has_index};
use hv_rules::FlowEvent;
use std::alloc::AllocError as NoMemory;

fn given_to(declaration: Option<u32>, path: &StaticPath) -> Option<u32>
    ensures { result ≡ spec.given_to declaration path.now }
{
    declaration?;
    if let [_, ..] = path.steps.as_slice() {
        return None;
    }
    Some(path.root)
}

/// The local to which an event of this declaration, or of none, gives its first value.
pub fn given(event: &FlowEvent, declaration: Option<u32>) -> Option<u32>
    ensures { result ≡ spec.given event.now declaration }
{
    match event {
        FlowEvent::Init(path) => given_to(declaration, path),
        _ => None,
    }
}

fn emptied_by(path: &StaticPath) -> Option<u32>
    ensures { result ≡ spec.emptied_by path.now }
{
    if has_index(path.steps.as_slice()) {
        return None;
    }
    Some(path.root)
}

/// The local from which, or from a part of which, an event takes the value.
pub fn emptied(event: &FlowEvent) -> Option<u32>
    ensures { result ≡ spec.emptied event.now }
{
    match event {
        FlowEvent::Move(path) | FlowEvent::OpenSet(path) => emptied_by(path),
        _ => None,
    }
}

/// The local for which, or for a part of which, an event asks.
pub fn asked(event: &FlowEvent) -> Option<u32>
    ensures { result ≡ spec.asked event.now }
{
    match event {
        FlowEvent::Use(path)
        | FlowEvent::Move(path)
        | FlowEvent::OpenRead(path)
        | FlowEvent::OpenWrite(path) => Some(path.root),
        FlowEvent::Init(path) | FlowEvent::OpenSet(path) => {
            if has_index(path.steps.as_slice()) {
                return Some(path.root);
            }
            None
        }
        _ => None,
    }
}

/// What is in sight behind an event of this declaration, or of none.
pub fn pass_event(
    sight: &mut Sight,
    event: &FlowEvent,
    declaration: Option<u32>,
) -> Result<(), NoMemory>
    ensures { OnOk result (sight.new ≡ sight_behind event.now declaration sight.old) }
{
    match event {
        FlowEvent::Declare(local) | FlowEvent::ScopeEnd(local) => sight.end_from(*local),
        _ => {
            if let Some(local) = given(event, declaration) {
                sight.give(local)?;
            }
        }
    }
    Ok(())
}
