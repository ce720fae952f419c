use hv_decls::{StaticPath, StaticStep};
use hv_flow_plan::FlowOp;
use hv_init_needs::locals_with_state;
use hv_items::Items;
use hv_rules::FlowEvent;
use hv_tree::Place;
use std::alloc::{AllocError as NoMemory, Global};
use std::test::Fail;

const AT: Place = Place { start: 0 };

// `k`, `k.f` or `k[i]`.
fn path(alloc: Global, root: u32, step: Option<StaticStep>) -> Result<StaticPath, NoMemory> {
    let mut steps = Items::new(alloc);
    if let Some(step) = step {
        steps.push(step)?;
    }
    Ok(StaticPath { root, steps })
}

fn event(alloc: Global, letter: u8, local: u32) -> Result<FlowEvent, NoMemory> {
    let all = path(alloc, local, None)?;
    let field = path(alloc, local, Some(StaticStep::Field(0)))?;
    let element = path(alloc, local, Some(StaticStep::Any))?;
    Ok(match letter {
        b'D' => FlowEvent::Declare(local),
        b'I' => FlowEvent::Init(all),
        b'f' => FlowEvent::Init(field),
        b'i' => FlowEvent::Init(element),
        b'U' => FlowEvent::Use(all),
        b'M' => FlowEvent::Move(all),
        b'n' => FlowEvent::Move(field),
        b'm' => FlowEvent::Move(element),
        b'R' => FlowEvent::OpenRead(all),
        b'W' => FlowEvent::OpenWrite(all),
        b'S' => FlowEvent::OpenSet(all),
        b's' => FlowEvent::OpenSet(element),
        b'E' => FlowEvent::ScopeEnd(local),
        b'C' => FlowEvent::Close,
        _ => FlowEvent::Entry,
    })
}

// A letter a word, or two: which event, and the local.
fn plan(alloc: Global, text: &str) -> Result<Vec<FlowOp>, NoMemory> {
    let mut plan = Vec::new(alloc);
    let mut left = text.as_bytes();
    while let [letter, local, rest @ ..] = left {
        let local = u32::from(local.saturating_sub(b'0'));
        plan.push(match *letter {
            b't' => FlowOp::Then,
            b'e' => FlowOp::Either,
            b'l' => FlowOp::Loop,
            b'k' => FlowOp::Skip,
            b'r' => FlowOp::Stop(FlowEvent::Return, AT),
            other => FlowOp::Do(event(alloc, other, local)?, AT),
        })?;
        left = rest;
    }
    Ok(plan)
}

// Of two locals.
#[test]
fn a_local_needs_a_state_where_an_event_may_find_it_without_a_value(
    rt: HostRuntime,
) -> Result<(), Fail> {
    let alloc = rt.alloc();
    let rows = [
        ("t a t t D0I0t U0E0", false, true),
        ("t a t t D0I0t t D1I1t t U1U0E0", false, false),
        ("t a t D0t U0E0", true, true),
        ("t a t D0t U1t I0E0", true, true),
        ("t a t D0f0", true, true),
        ("t a t t D0I0t M0E0", true, true),
        ("t a t t D0I0n0", true, true),
        ("t a t t D0I0t S0C0", true, true),
        ("t a t t D0I0m0", false, true),
        ("t a t t D0I0t s0C0", false, true),
        ("t a t U0t D0I0", true, true),
        ("t a t t D0I0t E0U0", true, true),
        ("t a t t D0I0t E0i0", true, true),
        ("t a t t D0I0t t t D1I1t W1E1t R0E0", false, false),
        ("t a t t D0I0t t t D1I1E1t U1E0", false, true),
        ("t a l t t D0I0t U0E0", false, true),
        ("t a t l t t D0I0t U0E0t U0E0", true, true),
        ("t a t t D0I0e t M0r t U0E0", true, true),
        ("t a t t D0I0t M0t U0t t D0I0U0", true, true),
        ("t a M7", true, true),
        ("", true, true),
    ];
    for (text, first, second) in rows {
        let plan = plan(alloc, text)?;
        let flags = locals_with_state(alloc, plan.as_slice(), 2)?;
        let found = [flags.get(0).copied(), flags.get(1).copied()];
        assert_eq!(rt; found, [Some(first), Some(second)], "{text}");
    }
    Ok(())
}
