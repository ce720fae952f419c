// What an event asks of the cells.
ghost use Rattle.std.specs.Prelude.{◌≡◌, ◌++◌, ◌∷◌, [], false, if◌then◌else◌, Some, None, map, OnOk};
ghost use Rattle.hv_rules.specs.Rules as rules;
ghost use Rattle.hv_decls.specs.Paths as paths;
ghost use Rattle.hv_init_layout.specs.Laid.{laid};
ghost use Rattle.hv_flow_pass.specs.declared.act.Act.TheVariants as act;
ghost use Rattle.hv_init_cells.specs.Acts as spec;
ghost use Rattle.hv_init.specs.Words as ended;

use hv_decls::{StaticPath, has_index};
use hv_flow_ends::{End, Span, is_end};
use hv_flow_pass::{Act, Range};
use hv_init_layout::Layout;
use hv_items::Items;
use hv_rules::FlowEvent;
use hv_tree::{Place, Refusal, Rule};
use std::alloc::AllocError as NoMemory;

fn refuse(acts: &mut Items<Act>, cells: Range, rule: Rule, place: Place) -> Result<(), NoMemory>
    ensures { OnOk result (acts.new ≡ acts.old ++ act.Refuse cells false (spec.refusal rule place) ∷ []) }
{
    acts.push(Act::Refuse(cells, false, Refusal { rule, place }))
}

fn ask_path(
    layout: &Layout<'_>,
    acts: &mut Items<Act>,
    path: &StaticPath,
    place: Place,
) -> Result<(), NoMemory>
    ensures { OnOk result (acts.new ≡ acts.old ++ spec.whole_asked (laid layout.now) place (Some path.now)) }
{
    let cells = layout.path_cells(path)?;
    refuse(acts, cells, Rule::I1, place)
}

// A place is changed in part only where the rest has a value.
fn ask_index(
    layout: &Layout<'_>,
    acts: &mut Items<Act>,
    path: &StaticPath,
    place: Place,
) -> Result<(), NoMemory>
    ensures { OnOk result (acts.new ≡ acts.old ++ spec.whole_asked (laid layout.now) place (if paths.has_index path.now.steps then Some path.now else None)) }
{
    if has_index(path.steps.as_slice()) {
        ask_path(layout, acts, path, place)
    } else {
        Ok(())
    }
}

fn ask_event(
    layout: &Layout<'_>,
    acts: &mut Items<Act>,
    event: &FlowEvent,
    place: Place,
) -> Result<(), NoMemory>
    ensures { OnOk result (acts.new ≡ acts.old ++ spec.whole_asked (laid layout.now) place (rules.asks_whole event.now)) }
{
    match event {
        FlowEvent::Init(path) | FlowEvent::OpenSet(path) => ask_index(layout, acts, path, place),
        FlowEvent::Use(path)
        | FlowEvent::Move(path)
        | FlowEvent::OpenRead(path)
        | FlowEvent::OpenWrite(path) => ask_path(layout, acts, path, place),
        _ => Ok(()),
    }
}

fn ask_span(
    layout: &Layout<'_>,
    acts: &mut Items<Act>,
    span: Span,
    place: Place,
) -> Result<(), NoMemory>
    ensures { OnOk result (acts.new ≡ acts.old ++ ended.span_asked (laid layout.now) place span ∷ []) }
{
    let cells = layout.span_cells(span.first, span.count)?;
    refuse(acts, cells, Rule::I2, place)
}

fn ask_spans(
    layout: &Layout<'_>,
    acts: &mut Items<Act>,
    spans: &[Span],
    place: Place,
) -> Result<(), NoMemory>
    ensures { OnOk result (acts.new ≡ acts.old ++ map (ended.span_asked (laid layout.now) place) spans.now) }
{
    for span in spans {
        ask_span(layout, acts, *span, place)?;
    }
    Ok(())
}

// No act sets the free cell, so that it is refused wherever it is reached.
fn ask_result(
    layout: &Layout<'_>,
    acts: &mut Items<Act>,
    missing: bool,
    place: Place,
) -> Result<(), NoMemory>
    ensures { OnOk result (acts.new ≡ acts.old ++ spec.missing_asked (laid layout.now) place missing) }
{
    if missing {
        refuse(acts, layout.free_cell(), Rule::I3, place)
    } else {
        Ok(())
    }
}

fn ask_end(
    layout: &Layout<'_>,
    acts: &mut Items<Act>,
    end: &End,
    place: Place,
) -> Result<(), NoMemory>
    ensures { OnOk result (acts.new ≡ acts.old ++ ended.end_asked (laid layout.now) place end.now) }
{
    ask_spans(layout, acts, end.back.as_slice(), place)?;
    ask_result(layout, acts, end.missing, place)
}

fn ask_next(
    layout: &Layout<'_>,
    acts: &mut Items<Act>,
    to_come: &[End],
    place: Place,
) -> Result<(), NoMemory>
    ensures { OnOk result (acts.new ≡ acts.old ++ ended.next_asked (laid layout.now) place to_come.now) }
{
    match to_come.first() {
        Some(end) => ask_end(layout, acts, end, place),
        None => Ok(()),
    }
}

fn ask_ended(
    layout: &Layout<'_>,
    acts: &mut Items<Act>,
    to_come: &[End],
    event: &FlowEvent,
    place: Place,
) -> Result<(), NoMemory>
    ensures { OnOk result (acts.new ≡ acts.old ++ ended.ended_asked (laid layout.now) event.now place to_come.now) }
{
    if is_end(event) {
        ask_next(layout, acts, to_come, place)
    } else {
        Ok(())
    }
}

/// Adds what is asked at an event, where these ends are still to come.
pub(crate) fn ask(
    layout: &Layout<'_>,
    acts: &mut Items<Act>,
    to_come: &[End],
    event: &FlowEvent,
    place: Place,
) -> Result<(), NoMemory>
    ensures { OnOk result (acts.new ≡ acts.old ++ (spec.whole_asked (laid layout.now) place (rules.asks_whole event.now) ++ ended.ended_asked (laid layout.now) event.now place to_come.now)) }
{
    ask_event(layout, acts, event, place)?;
    ask_ended(layout, acts, to_come, event, place)
}
