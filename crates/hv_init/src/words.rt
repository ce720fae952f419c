// The acts of a body's events, in one pass over the words of its plan.
ghost use Rattle.std.specs.Prelude.{◌≡◌, [], None, IfOk};
ghost use Rattle.hv_init_layout.specs.Laid.{laid};
ghost use Rattle.hv_init.specs.Words as spec;

use crate::asks::ask;
use crate::sets::set;
use hv_excl::{Opened, declares, pass_word, told_binding};
use hv_flow_ends::{End, ends_behind};
use hv_flow_pass::{Act, PassOp};
use hv_flow_plan::FlowOp;
use hv_init_layout::Layout;
use hv_items::Items;
use hv_rules::FlowEvent;
use hv_tree::Place;
use std::alloc::{AllocError as NoMemory, Global};

// What is asked is asked of the state before the event.
fn event_acts(
    alloc: Global,
    layout: &Layout<'_>,
    opened: &Opened<'_>,
    to_come: &[End],
    event: &FlowEvent,
    place: Place,
) -> Result<Items<Act>, NoMemory>
    ensures { IfOk result (λ acts. acts ≡ spec.event_acts (laid layout.now) opened.now to_come.now event.now place) }
{
    let mut acts = Items::new(alloc);
    ask(layout, &mut acts, to_come, event, place)?;
    set(layout, &mut acts, opened, event)?;
    Ok(acts)
}

fn init_word(
    alloc: Global,
    layout: &Layout<'_>,
    opened: &Opened<'_>,
    to_come: &[End],
    word: &FlowOp,
) -> Result<PassOp, NoMemory>
    ensures { IfOk result (λ o. o ≡ spec.init_word (laid layout.now) opened.now to_come.now word.now) }
{
    Ok(match word {
        FlowOp::Skip => PassOp::Skip,
        FlowOp::Do(event, place) => {
            PassOp::Do(event_acts(alloc, layout, opened, to_come, event, *place)?)
        }
        FlowOp::Stop(event, place) => {
            PassOp::Stop(event_acts(alloc, layout, opened, to_come, event, *place)?)
        }
        FlowOp::Then => PassOp::Then,
        FlowOp::Either => PassOp::Either,
        FlowOp::Loop => PassOp::Loop,
    })
}

/// The plan of the acts of a body's events, where these are its ends. It takes time in proportion to
/// the words, and at each end to the rows of locals that are written back.
pub(crate) fn init_words(
    alloc: Global,
    layout: &Layout<'_>,
    words: &[FlowOp],
    ends: &[End],
) -> Result<Items<PassOp>, NoMemory>
    ensures { IfOk result (λ acts. acts ≡ spec.init_words (laid layout.now) None [] ends.now words.now) }
{
    let mut acts = Items::new(alloc);
    let mut opened = Opened::new(alloc);
    let mut before = None;
    let mut to_come = ends;
    let mut left = words;
    while let [word, rest @ ..] = left {
        let binding = told_binding(before, word, rest);
        acts.push(init_word(alloc, layout, &opened, to_come, word)?)?;
        opened = pass_word(alloc, opened, word, binding)?;
        to_come = ends_behind(word, to_come);
        before = declares(word);
        left = rest;
    }
    Ok(acts)
}
