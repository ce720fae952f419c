use hv_flow_pass::{Act, PassOp, Range, first_refusal};
use hv_items::Items;
use hv_tree::{Place, Refusal, Rule};
use std::alloc::{AllocError as NoMemory, Global};
use std::test::Fail;

const CELL: Range = Range { from: 0, count: 1 };

fn refuse(range: Range, value: bool, rule: Rule, start: u32) -> Act {
    let place = Place { start };
    Act::Refuse(range, value, Refusal { rule, place })
}

fn acts(alloc: Global, byte: u8, start: u32) -> Result<Items<Act>, NoMemory> {
    let all = Range { from: 0, count: 4 };
    let others = Range { from: 1, count: 3 };
    let mut acts = Items::new(alloc);
    match byte {
        b'+' => acts.push(Act::Set(CELL, true))?,
        b'-' => acts.push(Act::Set(CELL, false))?,
        b'w' => acts.push(Act::Set(others, true))?,
        b'W' => acts.push(refuse(all, false, Rule::I1, start))?,
        b'!' => acts.push(refuse(CELL, true, Rule::I1, start))?,
        b'?' => acts.push(refuse(CELL, false, Rule::I1, start))?,
        b'm' => {
            acts.push(refuse(CELL, false, Rule::I1, start))?;
            acts.push(Act::Set(CELL, true))?;
        }
        b'b' => {
            acts.push(refuse(CELL, false, Rule::I2, start))?;
            acts.push(refuse(CELL, false, Rule::I1, start))?;
        }
        _ => {}
    }
    Ok(acts)
}

// A letter a word. Their places rise from 1 or fall from 99 on.
fn plan(alloc: Global, text: &str, rises: bool) -> Result<Vec<PassOp>, NoMemory> {
    let mut plan = Vec::new(alloc);
    let mut start = if rises { 1u32 } else { 99u32 };
    for byte in text.bytes() {
        plan.push(match byte {
            b's' => PassOp::Skip,
            b't' => PassOp::Then,
            b'e' => PassOp::Either,
            b'l' => PassOp::Loop,
            b'x' => PassOp::Stop(acts(alloc, b'?', start)?),
            _ => PassOp::Do(acts(alloc, byte, start)?),
        })?;
        start = if rises {
            start.saturating_add(1)
        } else {
            start.saturating_sub(1)
        };
    }
    Ok(plan)
}

#[test]
fn the_first_refusal_of_all_traces(rt: HostRuntime) -> Result<(), Fail> {
    let alloc = rt.alloc();
    let rows = [
        ("?", Some(99)),
        ("!", None),
        ("t+!", Some(97)),
        ("t+?", None),
        ("t??", Some(97)),
        ("tm?", Some(98)),
        ("b", Some(99)),
        ("x", Some(99)),
        ("t+tx?", None),
        ("te+s?", Some(95)),
        ("te++?", None),
        ("te+e++?", None),
        ("te+es+?", Some(93)),
        ("tees+m?", Some(93)),
        ("t+te+-?", Some(93)),
        ("tl+?", Some(96)),
        ("t+tl-?", Some(94)),
        ("t+lt?-", Some(95)),
        ("t+lt?+", None),
        ("t+llt?-", Some(94)),
        ("t+lt?l-", Some(95)),
        ("te+sl?", Some(94)),
        ("te+sl!", Some(94)),
        ("t+tt+xl?", None),
        ("ttw+W", None),
        ("ttwsW", Some(95)),
        ("tt+sW", Some(95)),
        ("te+e+s?", Some(93)),
        ("te+e+e+s?", Some(91)),
        ("te+e+e++?", None),
        ("tese+e++?", Some(91)),
        ("teee+++s?", Some(91)),
        ("teee++++?", None),
        ("t+tex-?", Some(93)),
        ("t+ltl-?", Some(93)),
        ("t+ltl?-", Some(94)),
        ("t+ltl?+", None),
        ("t+lte?s-", Some(94)),
        ("t+lte?-+", None),
        ("ttwl+W", Some(94)),
        ("t+ltb-", Some(95)),
    ];
    for (text, want) in rows {
        let words = plan(alloc, text, false)?;
        let found = first_refusal(alloc, words.as_slice())?;
        let refusal = want.map(|start| Refusal {
            rule: Rule::I1,
            place: Place { start },
        });
        assert_eq!(rt; found, refusal, "{text}");
    }
    Ok(())
}

#[test]
fn what_is_asked_again_in_a_turn_is_found_at_its_first_place(rt: HostRuntime) -> Result<(), Fail> {
    let alloc = rt.alloc();
    let rows = [
        ("t+lt?t?-", 5, 93),
        ("t+lt?lt?-", 5, 92),
        ("t+lt?tlt?-s", 5, 91),
        ("t+ltl?tl?-", 6, 91),
        ("t+lltl?tl?-", 7, 90),
        ("t+lt?ltl?t?-", 5, 89),
        ("t+ltWt?t?-", 5, 91),
        ("ttw+ltWtl?t?-", 7, 88),
        ("t+lte?st?t?-", 6, 89),
        ("t+ltetm?l?t?-", 7, 88),
        ("t+ltet+l?st?-", 12, 88),
    ];
    for (text, rising, falling) in rows {
        for (rises, start) in [(true, rising), (false, falling)] {
            let words = plan(alloc, text, rises)?;
            let found = first_refusal(alloc, words.as_slice())?;
            let rule = Rule::I1;
            let place = Place { start };
            assert_eq!(rt; found, Some(Refusal { rule, place }), "{text}, {start}");
        }
    }
    Ok(())
}
