ghost use Rattle.std.specs.Prelude.{◌≡◌, ◌↔◌, ◌+◌, ◌++◌, ◌∷◌, [], IsTrue, OnOk};
ghost use Rattle.hv_flow_ends.specs.Ends.{numbers_in};

use crate::count::sum;
use hv_items::Items;
use std::alloc::AllocError as NoMemory;

/// So many numbers from one on.
#[derive(Clone, Copy)]
pub struct Span {
    pub first: u32,
    pub count: u32,
}

/// What ends at a `return` or at the end of a block. Locals go by number.
#[derive(Drop)]
pub struct End {
    /// The locals that are written back there.
    pub back: Items<Span>,
    /// The handles whose block ends there, also those whose task stands behind it.
    pub handles: Items<Span>,
    /// Whether the end of a body with a result is reached there.
    pub missing: bool,
}

fn ends_before(last: Span, number: u32) -> bool
    ensures { IsTrue result ↔ (last.first + last.count ≡ number) }
{
    u64::from(last.first) + u64::from(last.count) == u64::from(number)
}

// The span with the next number, or both apart.
fn push_behind(spans: &mut Items<Span>, last: Span, number: u32) -> Result<(), NoMemory>
    ensures { OnOk result (numbers_in spans.new ≡ numbers_in (spans.old ++ last ∷ []) ++ number ∷ []) }
{
    if ends_before(last, number) {
        let count = sum(last.count, 1)?;
        spans.push(Span {
            first: last.first,
            count,
        })
    } else {
        spans.push(last)?;
        spans.push(Span {
            first: number,
            count: 1,
        })
    }
}

/// One number more behind these.
pub(crate) fn push_number(spans: &mut Items<Span>, number: u32) -> Result<(), NoMemory>
    ensures { OnOk result (numbers_in spans.new ≡ numbers_in spans.old ++ number ∷ []) }
{
    match spans.pop() {
        Some(last) => push_behind(spans, last, number),
        None => spans.push(Span {
            first: number,
            count: 1,
        }),
    }
}

/// These numbers behind the others.
pub(crate) fn push_spans(spans: &mut Items<Span>, more: &[Span]) -> Result<(), NoMemory>
    ensures { OnOk result (spans.new ≡ spans.old ++ more.now) }
{
    for span in more {
        spans.push(*span)?;
    }
    Ok(())
}
