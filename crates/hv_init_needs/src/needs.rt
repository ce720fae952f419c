// Which locals need a state, in one pass over the words of a plan.
ghost use Rattle.std.specs.Prelude.{◌≡◌, ◌<◌, ℕ, [], false, None, length, map, get_or, replicate, IfOk, OnOk};
ghost use Rattle.hv_tree.specs.Core.{Core};
ghost use Rattle.hv_decls.specs.Locals.{CoreBody};
ghost use Rattle.hv_flow_plan.specs.Spelling.{plan_of_body};
ghost use Rattle.hv_init_needs.specs.Needs.{needs_state};
ghost use Rattle.hv_init_needs.specs.declared.standing.Standing.TheVariants.{Unfilled};
ghost use Rattle.hv_init_needs.specs.Standings as standings;
ghost use Rattle.hv_init_needs.specs.Words as spec;

use crate::event::{asked, emptied, given, pass_event};
use crate::sight::Sight;
use crate::standing::{Standing, fill, needs, unsettle};
use hv_excl::{declares, told_binding};
use hv_flow_plan::FlowOp;
use hv_items::Items;
use hv_rules::FlowEvent;
use std::alloc::{AllocError as NoMemory, Global};

fn all_unfilled(alloc: Global, count: usize) -> Result<Items<Standing>, NoMemory>
    ensures { IfOk result (λ all. all ≡ replicate count Unfilled) }
{
    let mut all = Items::new(alloc);
    for _ in 0..count {
        all.push(Standing::Unfilled)?;
    }
    Ok(all)
}

// The local, unless it is in sight.
fn outside(sight: &Sight, local: Option<u32>) -> Option<u32>
    ensures { result ≡ standings.outside sight.now local }
{
    let local = local?;
    if sight.sees(local) {
        return None;
    }
    Some(local)
}

fn mark_event(all: &mut Items<Standing>, sight: &Sight, event: &FlowEvent, declaration: Option<u32>)
    ensures { all.new ≡ standings.marked (record { event = event.now; declaration = declaration; sight = sight.now }) all.old }
{
    unsettle(all, emptied(event));
    unsettle(all, outside(sight, asked(event)));
    fill(all, given(event, declaration));
}

fn mark_word(all: &mut Items<Standing>, sight: &Sight, word: &FlowOp, declaration: Option<u32>)
    ensures { all.new ≡ standings.marked_by (spec.seen_op declaration sight.now word.now) all.old }
{
    match word {
        FlowOp::Do(event, _) | FlowOp::Stop(event, _) => {
            mark_event(all, sight, event, declaration);
        }
        FlowOp::Skip | FlowOp::Then | FlowOp::Either | FlowOp::Loop => {}
    }
}

fn pass_word(sight: &mut Sight, word: &FlowOp, declaration: Option<u32>) -> Result<(), NoMemory>
    ensures { OnOk result (sight.new ≡ spec.sight_op declaration word.now sight.old) }
{
    match word {
        FlowOp::Do(event, _) | FlowOp::Stop(event, _) => pass_event(sight, event, declaration),
        FlowOp::Skip | FlowOp::Then | FlowOp::Either | FlowOp::Loop => Ok(()),
    }
}

// How each local stands behind all words.
#[tactic(auto, using(crate::proofs::Settling::marked_one))]
fn mark_words(alloc: Global, plan: &[FlowOp], count: usize) -> Result<Items<Standing>, NoMemory>
    ensures { IfOk result (λ all. all ≡ standings.marked_by (spec.seen_words None [] plan.now) (replicate count Unfilled)) }
{
    let mut all = all_unfilled(alloc, count)?;
    let mut sight = Sight::new(alloc);
    let mut before = None;
    let mut left = plan;
    while let [word, rest @ ..] = left {
        let declaration = told_binding(before, word, rest);
        mark_word(&mut all, &sight, word, declaration);
        pass_word(&mut sight, word, declaration)?;
        before = declares(word);
        left = rest;
    }
    Ok(all)
}

fn needs_of(alloc: Global, all: &[Standing]) -> Result<Items<bool>, NoMemory>
    ensures { IfOk result (λ flags. flags ≡ map standings.needs all.now) }
{
    let mut flags = Items::new(alloc);
    for standing in all {
        flags.push(needs(*standing))?;
    }
    Ok(flags)
}

/// Whether each of the first `count` locals of a body needs a state, by the body's plan. It takes time in
/// proportion to `count`, and to the words times the logarithm of the locals in sight.
pub fn locals_with_state(
    alloc: Global,
    plan: &[FlowOp],
    count: usize,
) -> Result<Items<bool>, NoMemory>
    ensures count { IfOk result (λ flags. length flags ≡ count) }
    ensures exact { IfOk result (λ flags. (tree : Core) (body : CoreBody) → plan.now ≡ plan_of_body tree body → (k : ℕ) → k < count → get_or flags k false ≡ needs_state tree body k) }
{
    let all = mark_words(alloc, plan, count)?;
    let flags = needs_of(alloc, all.as_slice())?;
    Ok(flags)
}
