// The first refusal of a plan, in one pass over its words.
ghost use Rattle.std.specs.Prelude.{◌≡◌, ◌∷◌, [], List, IfOk, OnOk, Some, None};
ghost use Rattle.hv_rules.specs.Flow.{Flow};
ghost use Rattle.hv_tree.specs.Earlier.{IsFirst};
ghost use Rattle.hv_flow_pass.specs.declared.act.Act.{Act};
ghost use Rattle.hv_flow_pass.specs.declared.known.Frame.TheVariants as frame;
ghost use Rattle.hv_flow_pass.specs.Plans.{plan_of};
ghost use Rattle.hv_flow_pass.specs.Refused.{IsRefused};
ghost use Rattle.hv_flow_pass.specs.Passes as spec;

use crate::act::Act;
use crate::asked::{Asks, Entry};
use crate::count::count_cells;
use crate::first::{earlier, when};
use crate::known::{Frame, Known};
use crate::plan::PassOp;
use crate::waiting::Waiting;
use crate::{asked, cells, hints};
use hv_flow_versions::Versions;
use hv_items::Items;
use hv_tree::Refusal;
use std::alloc::{AllocError as NoMemory, Global};
use std::mem;

fn pass_act(known: &mut Known, act: Act) -> Result<(), NoMemory>
    ensures { OnOk result (known.new ≡ spec.changed (spec.pass_act act) known.old) }
{
    match act {
        Act::Set(range, value) => known.versions.set(range.from, range.count, value),
        Act::Refuse(range, value, refusal) => {
            asked::ask(&mut known.asked, &known.versions, range, value, refusal)?;
            let may = cells::may(&known.versions, range, value);
            known.found = earlier(known.found, when(may, Some(refusal)));
            Ok(())
        }
    }
}

fn pass_acts(known: &mut Known, acts: &[Act]) -> Result<(), NoMemory>
    ensures { OnOk result (known.new ≡ spec.changed (spec.pass_acts acts.now) known.old) }
{
    for act in acts {
        pass_act(known, *act)?;
    }
    Ok(())
}

// The other side begins where the one did. Sides that end together are one.
fn change_sides(known: &mut Known, waiting: &mut Waiting) -> Result<(), NoMemory>
    ensures known { OnOk result (known.new ≡ spec.with_levels (spec.sides_changed_before waiting.old known.old.versions) known.old) }
    ensures waiting { OnOk result (waiting.new ≡ spec.waiting_behind waiting.old) }
{
    match waiting.pop() {
        Some(Frame::OtherSide) => known.versions.change_sides_within()?,
        Some(frame) => {
            waiting.push(frame)?;
            known.versions.change_sides();
        }
        None => known.versions.change_sides(),
    }
    waiting.push(Frame::OtherSide)
}

fn leave(known: &mut Known, outer: Items<Entry>) -> Result<(), NoMemory>
    ensures { OnOk result (known.new ≡ spec.left_known outer known.old) }
{
    known.versions.leave();
    let turn = mem::replace(&mut known.asked.list, outer);
    known.found = asked::find(&known.versions, turn.as_slice(), known.found);
    asked::pass_on(&mut known.asked, &known.versions, turn.as_slice())
}

// Completes each operator that waits for this part alone.
fn give(known: &mut Known, waiting: &mut Waiting) -> Result<(), NoMemory>
    ensures known { OnOk result (known.new ≡ (spec.given waiting.old known.old).known) }
    ensures waiting { OnOk result (waiting.new ≡ (spec.given waiting.old known.old).waiting) }
{
    while let Some(frame) = waiting.pop() {
        match frame {
            Frame::Before => return Ok(()),
            Frame::OneSide => return change_sides(known, waiting),
            Frame::OtherSide => known.versions.join(),
            Frame::Turn(outer) => leave(known, outer)?,
        }
    }
    Ok(())
}

fn enter(alloc: Global, known: &mut Known, waiting: &mut Waiting) -> Result<(), NoMemory>
    ensures known { OnOk result (known.new ≡ spec.entered_known known.old) }
    ensures waiting { OnOk result (waiting.new ≡ frame.Turn known.old.asked.list ∷ waiting.old) }
{
    known.versions.enter()?;
    let outer = mem::replace(&mut known.asked.list, Items::new(alloc));
    waiting.push(Frame::Turn(outer))
}

fn read(
    alloc: Global,
    op: &PassOp,
    known: &mut Known,
    waiting: &mut Waiting,
) -> Result<(), NoMemory>
    ensures known { OnOk result (known.new ≡ (spec.read op.now waiting.old known.old).known) }
    ensures waiting { OnOk result (waiting.new ≡ (spec.read op.now waiting.old known.old).waiting) }
{
    match op {
        PassOp::Skip => give(known, waiting),
        PassOp::Do(acts) => {
            pass_acts(known, acts.as_slice())?;
            give(known, waiting)
        }
        PassOp::Stop(acts) => {
            pass_acts(known, acts.as_slice())?;
            known.versions.stop();
            give(known, waiting)
        }
        PassOp::Then => waiting.push(Frame::Before),
        PassOp::Either => {
            known.versions.split()?;
            waiting.push(Frame::OneSide)
        }
        PassOp::Loop => enter(alloc, known, waiting),
    }
}

fn read_all(alloc: Global, plan: &[PassOp], known: &mut Known) -> Result<(), NoMemory>
    ensures { OnOk result (known.new ≡ spec.read_all plan.now [] known.old) }
{
    let mut waiting = Waiting::new(alloc);
    for op in plan {
        read(alloc, op, known, &mut waiting)?;
    }
    Ok(())
}

fn start(alloc: Global, count: usize) -> Result<Known, NoMemory>
    ensures { IfOk result (λ k. k ≡ spec.with_saved [] (spec.starting count)) }
{
    Ok(Known {
        versions: Versions::new(alloc, count)?,
        asked: Asks {
            list: Items::new(alloc),
            hints: hints::start(alloc, count)?,
        },
        found: None,
    })
}

/// The first of all that the acts of a plan refuse, over all traces of the flow that it spells. It
/// takes time in proportion to the words, the acts, the cells up to the last that an act names, and
/// the cells in the acts' ranges times how deep sides and turns nest at most. An `Either` at the end
/// of another's other side isn't deeper. Of what an open turn of a loop refuses it keeps one entry
/// for each cell and value, and one more each time that a later act's refusal comes before those.
#[tactic(auto, using(crate::proofs::Refusals::first_of_plan))]
pub fn first_refusal(alloc: Global, plan: &[PassOp]) -> Result<Option<Refusal>, NoMemory>
    ensures first { IfOk result (λ first. (f : Flow (List Act)) → plan.now ≡ plan_of f → IsFirst (IsRefused f) first) }
{
    let mut known = start(alloc, count_cells(plan))?;
    read_all(alloc, plan, &mut known)?;
    Ok(known.found)
}
