// The status and the text for an order and the bytes of its file.
ghost use Rattle.std.specs.Prelude.{◌≡◌, ◌≤◌, Some, length, IfOk};
ghost use Rattle.hv_task_tree.specs.Seen.{end_seen};
ghost use Rattle.hv_check.specs.Checks.{IsAccepted};
ghost use Rattle.hv_words.specs.Taken.{Asked};
ghost use Rattle.hv_words.specs.Answers.{asked_of};
ghost use Rattle.hv_driver.specs.Answer.{Answers, status_of, run_of};

use crate::Status;
use hv_check::{CheckEnd, check};
use hv_law_checked::accepted_programs_are_safe;
use hv_meaning::plain;
use hv_print::print;
use hv_report::{refusal_text, report};
use hv_runs::runs;
use hv_task_tree::End;
use hv_tree::{Edition, Tree};
use hv_words::Order;
use std::alloc::{AllocError, Global};

fn status_of(end: &End) -> Status
    ensures { result ≡ status_of (end_seen end.now) }
{
    match end {
        End::Done(_) => Status::Done,
        End::Trap(..) => Status::Trapped,
        End::Spent(_) => Status::Spent,
    }
}

// The report of an accepted program's run.
fn run(
    alloc: Global,
    source: &[u8],
    tree: &Tree,
    steps: u64,
    trace: bool,
) -> Result<(Status, Vec<u8>), AllocError>
    requires few { length source.now ≤ 1048577 }
    requires accepted { IsAccepted source.now tree.now }
    ensures { (asked : Asked) → run_of asked ≡ Some (steps, trace) → IfOk result (λ r. Answers asked source.now r.0 r.1.items) }
{
    if !runs(tree) {
        let text = Vec::from_slice(alloc, b"refused U1 at 1:1\n")?;
        return Ok((Status::Refused, text));
    }
    accepted_programs_are_safe();
    let node = plain(alloc, tree, steps)?;
    let text = report(alloc, source, &node, trace)?;
    Ok((status_of(&node.end), text))
}

/// The whole text is there before any of it is written.
pub fn answer(alloc: Global, order: &Order, source: &[u8]) -> Result<(Status, Vec<u8>), AllocError>
    requires { length source.now ≤ 1048577 }
    ensures { IfOk result (λ r. Answers (asked_of order.now) source.now r.0 r.1.items) }
{
    let tree = match check(alloc, source, Edition::One) {
        Ok(tree) => tree,
        Err(CheckEnd::Refused(refusal)) => {
            let text = refusal_text(alloc, source, refusal)?;
            return Ok((Status::Refused, text));
        }
        Err(CheckEnd::NoMemory) => return Err(AllocError),
    };
    match order {
        Order::Check { .. } => Ok((Status::Done, Vec::from_slice(alloc, b"accepted\n")?)),
        Order::Show { .. } => Ok((Status::Done, print(alloc, &tree)?)),
        Order::Plain { steps, trace, .. } => run(alloc, source, &tree, *steps, *trace),
        Order::Run { steps, trace, .. } => run(alloc, source, &tree, *steps, *trace),
    }
}
