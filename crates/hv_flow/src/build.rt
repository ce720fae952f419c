// The graph of a plan, in one pass over its words.
ghost use Rattle.std.specs.Prelude.{◌≡◌, ◌++◌, ◌∷◌, [], if◌then◌else◌, IfOk, OnOk, length};
ghost use Rattle.hv_tree.specs.declared.place.Place.{Place};
ghost use Rattle.hv_rules.specs.Events.{Events};
ghost use Rattle.hv_flow_plan.specs.Spelling.{entered, plan_of};
ghost use Rattle.hv_flow.specs.Walks.{EndsAlone, EntersNowhere, EntersOnce, IsGraph};
ghost use Rattle.hv_flow.specs.Graphs.{extend_at, linked, new_node, nothing, then_part, either_part, loop_part};
ghost use Rattle.hv_flow.specs.Reading.{given, read, read_all};

use crate::nodes::{FlowGraph, Node};
use crate::waiting::{Frame, Part, Waiting};
use hv_flow_plan::FlowOp;
use hv_items::Items;
use hv_rules::FlowEvent;
use hv_tree::Place;
use std::alloc::{AllocError as NoMemory, Global};

fn add(next: &mut Items<u32>, to: &[u32]) -> Result<(), NoMemory>
    ensures { OnOk result (next.new ≡ next.old ++ to.now) }
{
    for k in to {
        next.push(*k)?;
    }
    Ok(())
}

#[tactic(auto, using(crate::proofs::GraphLemmas::extend_set, crate::proofs::GraphLemmas::extend_past))]
fn extend(nodes: &mut [Node], at: u32, to: &[u32]) -> Result<(), NoMemory>
    ensures { OnOk result (nodes.new ≡ extend_at at to.now nodes.old) }
{
    let at = at as usize;
    if at < nodes.len() {
        add(&mut nodes[at].next, to)?;
    }
    Ok(())
}

fn link(nodes: &mut [Node], from: &[u32], to: &[u32]) -> Result<(), NoMemory>
    ensures { OnOk result (nodes.new ≡ linked from.now to.now nodes.old) }
{
    for k in from {
        extend(nodes, *k, to)?;
    }
    Ok(())
}

#[tactic(auto, using(crate::proofs::GraphLemmas::length_linked))]
fn link_all(nodes: &mut Vec<Node>, from: &[u32], to: &[u32]) -> Result<(), NoMemory>
    ensures { OnOk result (nodes.new.items ≡ linked from.now to.now nodes.old.items) }
{
    link(nodes.as_mut_slice(), from, to)
}

fn add_node(
    alloc: Global,
    nodes: &mut Vec<Node>,
    event: FlowEvent,
    place: Place,
) -> Result<u32, NoMemory>
    ensures number { IfOk result (λ k. k ≡ length nodes.old.items) }
    ensures added { OnOk result (nodes.new.items ≡ nodes.old.items ++ new_node event place ∷ []) }
{
    let Ok(k) = u32::try_from(nodes.len()) else {
        return Err(NoMemory);
    };
    nodes.push(Node {
        event,
        place,
        next: Items::new(alloc),
    })?;
    Ok(k)
}

fn one(alloc: Global, k: u32) -> Result<Items<u32>, NoMemory>
    ensures { IfOk result (λ v. v ≡ k ∷ []) }
{
    let mut v = Items::new(alloc);
    v.push(k)?;
    Ok(v)
}

fn ends(last: Items<u32>, end: Items<u32>, both: bool) -> Result<Items<u32>, NoMemory>
    ensures { IfOk result (λ v. v ≡ (if both then last ++ end else end)) }
{
    if both {
        let mut all = last;
        add(&mut all, end.as_slice())?;
        Ok(all)
    } else {
        Ok(end)
    }
}

fn then(p: Part, q: Part) -> Result<Part, NoMemory>
    ensures { IfOk result (λ r. r ≡ then_part p q) }
{
    let Part {
        mut first,
        last,
        empty,
    } = p;
    let Part {
        first: second,
        last: end,
        empty: is_end_empty,
    } = q;
    if empty {
        add(&mut first, second.as_slice())?;
    }
    Ok(Part {
        first,
        last: ends(last, end, is_end_empty)?,
        empty: empty && is_end_empty,
    })
}

fn either(p: Part, q: Part) -> Result<Part, NoMemory>
    ensures { IfOk result (λ r. r ≡ either_part p q) }
{
    let Part {
        mut first,
        mut last,
        empty,
    } = p;
    let Part {
        first: second,
        last: end,
        empty: is_end_empty,
    } = q;
    add(&mut first, second.as_slice())?;
    add(&mut last, end.as_slice())?;
    Ok(Part {
        first,
        last,
        empty: empty || is_end_empty,
    })
}

fn nothing(alloc: Global) -> Part
    ensures { result ≡ nothing }
{
    Part {
        first: Items::new(alloc),
        last: Items::new(alloc),
        empty: true,
    }
}

fn turned(p: Part) -> Part
    ensures { result ≡ loop_part p }
{
    let Part { first, last, .. } = p;
    Part {
        first,
        last,
        empty: true,
    }
}

// Completes each operator that waits for this part alone.
fn give(part: Part, waiting: &mut Waiting, nodes: &mut Vec<Node>) -> Result<(), NoMemory>
    ensures waiting { OnOk result (waiting.new ≡ (given part waiting.old nodes.old.items).waiting) }
    ensures nodes { OnOk result (nodes.new.items ≡ (given part waiting.old nodes.old.items).nodes) }
{
    let mut part = part;
    while let Some(frame) = waiting.pop() {
        match frame {
            Frame::Before => return waiting.push(Frame::Behind(part)),
            Frame::Behind(before) => {
                link_all(nodes, before.last.as_slice(), part.first.as_slice())?;
                part = then(before, part)?;
            }
            Frame::OneSide => return waiting.push(Frame::OtherSide(part)),
            Frame::OtherSide(side) => part = either(side, part)?,
            Frame::Turn => {
                link_all(nodes, part.last.as_slice(), part.first.as_slice())?;
                part = turned(part);
            }
        }
    }
    Ok(())
}

fn read(
    alloc: Global,
    op: FlowOp,
    waiting: &mut Waiting,
    nodes: &mut Vec<Node>,
) -> Result<(), NoMemory>
    ensures waiting { OnOk result (waiting.new ≡ (read op waiting.old nodes.old.items).waiting) }
    ensures nodes { OnOk result (nodes.new.items ≡ (read op waiting.old nodes.old.items).nodes) }
{
    match op {
        FlowOp::Skip => give(nothing(alloc), waiting, nodes),
        FlowOp::Do(event, place) => {
            let k = add_node(alloc, nodes, event, place)?;
            let part = Part {
                first: one(alloc, k)?,
                last: one(alloc, k)?,
                empty: false,
            };
            give(part, waiting, nodes)
        }
        FlowOp::Stop(event, place) => {
            let k = add_node(alloc, nodes, event, place)?;
            let part = Part {
                first: one(alloc, k)?,
                last: Items::new(alloc),
                empty: false,
            };
            give(part, waiting, nodes)
        }
        FlowOp::Then => waiting.push(Frame::Before),
        FlowOp::Either => waiting.push(Frame::OneSide),
        FlowOp::Loop => waiting.push(Frame::Turn),
    }
}

fn read_all(alloc: Global, plan: Vec<FlowOp>) -> Result<Vec<Node>, NoMemory>
    ensures { IfOk result (λ nodes. nodes.items ≡ read_all plan.items [] []) }
{
    let mut waiting = Waiting::new(alloc);
    let mut nodes = Vec::new(alloc);
    for op in plan {
        read(alloc, op, &mut waiting, &mut nodes)?;
    }
    Ok(nodes)
}

/// The graph of a plan. Its edges may be quadratically many: a row of pieces that may be empty has one from each piece to each later one.
#[tactic(auto, using(crate::proofs::Ends::plan_is_graph, crate::proofs::Entries::plan_enters))]
pub fn graph_of(alloc: Global, plan: Vec<FlowOp>) -> Result<FlowGraph, NoMemory>
    ensures graph { IfOk result (λ g. (at : Place) (f : Events) → plan.items ≡ plan_of (entered at f) → EndsAlone f → IsGraph at f g.nodes) }
    ensures enters { IfOk result (λ g. (at : Place) (f : Events) → plan.items ≡ plan_of (entered at f) → EntersNowhere f → EntersOnce g.nodes) }
{
    let nodes = read_all(alloc, plan)?;
    Ok(FlowGraph {
        nodes: Items::from_vec(nodes),
    })
}
