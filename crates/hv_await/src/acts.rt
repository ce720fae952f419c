// What events do to the cells of handles.
ghost use Rattle.std.specs.Prelude.{◌≡◌, map, IfOk};
ghost use Rattle.hv_await.specs.Acts as spec;

use hv_flow_ends::{End, Span, is_end};
use hv_flow_pass::{Act, Range};
use hv_items::Items;
use hv_rules::FlowEvent;
use hv_tree::{Place, Refusal, Rule};
use std::alloc::{AllocError as NoMemory, Global};

fn cell(handle: u32) -> Range
    ensures { result ≡ spec.cell handle }
{
    Range {
        from: handle,
        count: 1,
    }
}

fn left_event(alloc: Global, event: &FlowEvent) -> Result<Items<Act>, NoMemory>
    ensures { IfOk result (λ acts. acts ≡ spec.left_event event.now) }
{
    let mut acts = Items::new(alloc);
    match event {
        FlowEvent::Spawn(handle) => acts.push(Act::Set(cell(*handle), true))?,
        FlowEvent::Await(handle) => acts.push(Act::Set(cell(*handle), false))?,
        _ => {}
    }
    Ok(acts)
}

fn none_left(at: Place, span: Span) -> Act
    ensures { result ≡ spec.none_left at span }
{
    let handles = Range {
        from: span.first,
        count: span.count,
    };
    let refusal = Refusal {
        rule: Rule::S1,
        place: at,
    };
    Act::Refuse(handles, true, refusal)
}

fn no_handle_left(alloc: Global, at: Place, handles: &[Span]) -> Result<Items<Act>, NoMemory>
    ensures { IfOk result (λ acts. acts ≡ map (spec.none_left at) handles.now) }
{
    let mut acts = Items::new(alloc);
    for span in handles {
        acts.push(none_left(at, *span))?;
    }
    Ok(acts)
}

fn first_ends(alloc: Global, at: Place, ends: &[End]) -> Result<Items<Act>, NoMemory>
    ensures { IfOk result (λ acts. acts ≡ spec.first_ends at ends.now) }
{
    match ends.first() {
        Some(end) => no_handle_left(alloc, at, end.handles.as_slice()),
        None => Ok(Items::new(alloc)),
    }
}

/// What the event does to cells that say whether their handle was spawned and not awaited since,
/// where these ends are still to come.
pub(crate) fn left_acts(
    alloc: Global,
    event: &FlowEvent,
    at: Place,
    to_come: &[End],
) -> Result<Items<Act>, NoMemory>
    ensures { IfOk result (λ acts. acts ≡ spec.left_acts event.now at to_come.now) }
{
    if is_end(event) {
        first_ends(alloc, at, to_come)
    } else {
        left_event(alloc, event)
    }
}

/// What the event does to cells that say whether their handle was awaited since its spawn.
pub(crate) fn again_acts(
    alloc: Global,
    event: &FlowEvent,
    at: Place,
) -> Result<Items<Act>, NoMemory>
    ensures { IfOk result (λ acts. acts ≡ spec.again_acts event.now at) }
{
    let mut acts = Items::new(alloc);
    match event {
        FlowEvent::Spawn(handle) => acts.push(Act::Set(cell(*handle), false))?,
        FlowEvent::Await(handle) => {
            let refusal = Refusal {
                rule: Rule::S2,
                place: at,
            };
            acts.push(Act::Refuse(cell(*handle), true, refusal))?;
            acts.push(Act::Set(cell(*handle), true))?;
        }
        _ => {}
    }
    Ok(acts)
}
