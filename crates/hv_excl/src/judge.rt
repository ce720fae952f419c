// The acts of a plan, in one pass over its words.
ghost use Rattle.std.specs.Prelude.{◌≡◌, [], None, IfOk};
ghost use Rattle.hv_excl.specs.Judged as spec;

use crate::access::Opened;
use crate::clash::refused_at;
use crate::open::pass_event;
use crate::told::{declares, told_binding};
use hv_flow_pass::{Act, PassOp, Range};
use hv_flow_plan::FlowOp;
use hv_items::Items;
use hv_tree::Refusal;
use std::alloc::{AllocError as NoMemory, Global};

// No act sets the cell, so that it is refused wherever it is reached.
fn acts(alloc: Global, refusal: Option<Refusal>) -> Result<Items<Act>, NoMemory>
    ensures { IfOk result (λ acts. acts ≡ spec.acts_of refusal) }
{
    let mut acts = Items::new(alloc);
    if let Some(refusal) = refusal {
        let cell = Range { from: 0, count: 1 };
        acts.push(Act::Refuse(cell, false, refusal))?;
    }
    Ok(acts)
}

fn judge_word(
    alloc: Global,
    opened: &Opened<'_>,
    word: &FlowOp,
    binding: Option<u32>,
) -> Result<PassOp, NoMemory>
    ensures { IfOk result (λ o. o ≡ spec.judged_op binding opened.now word.now) }
{
    Ok(match word {
        FlowOp::Skip => PassOp::Skip,
        FlowOp::Do(event, place) => {
            PassOp::Do(acts(alloc, refused_at(opened, event, binding, *place))?)
        }
        FlowOp::Stop(event, place) => {
            PassOp::Stop(acts(alloc, refused_at(opened, event, binding, *place))?)
        }
        FlowOp::Then => PassOp::Then,
        FlowOp::Either => PassOp::Either,
        FlowOp::Loop => PassOp::Loop,
    })
}

/// The open accesses behind a word that belongs to this binding, or to none.
pub fn pass_word<'p>(
    alloc: Global,
    opened: Opened<'p>,
    word: &'p FlowOp,
    binding: Option<u32>,
) -> Result<Opened<'p>, NoMemory>
    ensures { IfOk result (λ now. now ≡ spec.open_op binding word.now opened.entry) }
{
    match word {
        FlowOp::Do(event, _) | FlowOp::Stop(event, _) => pass_event(alloc, opened, event, binding),
        FlowOp::Skip | FlowOp::Then | FlowOp::Either | FlowOp::Loop => Ok(opened),
    }
}

/// The plan of the acts of a body's plan. It takes time in proportion to the words times the accesses
/// that are open at them.
pub fn judge(alloc: Global, plan: &[FlowOp]) -> Result<Items<PassOp>, NoMemory>
    ensures { IfOk result (λ acts. acts ≡ spec.judged None [] plan.now) }
{
    let mut judged = Items::new(alloc);
    let mut opened = Opened::new(alloc);
    let mut before = None;
    let mut left = plan;
    while let [word, rest @ ..] = left {
        let binding = told_binding(before, word, rest);
        judged.push(judge_word(alloc, &opened, word, binding)?)?;
        opened = pass_word(alloc, opened, word, binding)?;
        before = declares(word);
        left = rest;
    }
    Ok(judged)
}
