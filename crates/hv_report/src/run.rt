ghost use Rattle.std.specs.Prelude.{◌≡◌, ◌<◌, length, IfOk, string_bytes};
ghost use Rattle.hv_task_tree.specs.Seen.{end_seen, node_seen};
ghost use Rattle.hv_report.specs.Lines as spec;

use hv_sem_copying::TrapKind;
use hv_task_tree::{End, TaskNode};
use hv_tree::line_col;
use std::alloc::{AllocError, Global};

fn kind_name(kind: TrapKind) -> &'static str
    ensures { result.now ≡ spec.kind_name kind }
{
    match kind {
        TrapKind::Overflow => "overflow",
        TrapKind::DivZero => "divzero",
        TrapKind::Index => "index",
        TrapKind::BadLength => "badlength",
        TrapKind::TooLong => "toolong",
        TrapKind::BadBudget => "badbudget",
        TrapKind::TooDeep => "toodeep",
    }
}

#[tactic(auto, using(crate::proofs::Root::trap_said, crate::proofs::Root::spent_said))]
fn ending(alloc: Global, source: &[u8], end: &End) -> Result<String, AllocError>
    requires { length source.now < 4294967295 }
    ensures { IfOk result (λ text. string_bytes text ≡ spec.ending source.now (end_seen end.now)) }
{
    match end {
        End::Done(_) => String::from_str(alloc, "done"),
        End::Trap(kind, place) => {
            let kind = kind_name(*kind);
            let (line, column) = line_col(source, *place);
            format!(in alloc; "trap {kind} at {line}:{column} in 0")
        }
        End::Spent(place) => {
            let (line, column) = line_col(source, *place);
            format!(in alloc; "spent at {line}:{column} in 0")
        }
    }
}

fn ending_line(alloc: Global, source: &[u8], end: &End) -> Result<String, AllocError>
    requires { length source.now < 4294967295 }
    ensures { IfOk result (λ text. string_bytes text ≡ spec.ending_line source.now (end_seen end.now)) }
{
    match end {
        End::Done(_) => Ok(String::new(alloc)),
        End::Trap(..) | End::Spent(_) => {
            let ending = ending(alloc, source, end)?;
            format!(in alloc; "{}\n", ending.as_str())
        }
    }
}

#[tactic(auto, using(crate::proofs::Root::task_said))]
fn task_line(alloc: Global, source: &[u8], node: &TaskNode) -> Result<String, AllocError>
    requires { length source.now < 4294967295 }
    ensures { IfOk result (λ text. string_bytes text ≡ spec.task_lines source.now (node_seen node.now)) }
{
    let ending = ending(alloc, source, &node.end)?;
    format!(in alloc; "task 0 steps {} {}\n", node.used, ending.as_str())
}

/// The output, how the root ended, and the trace where one is asked for.
pub fn report(
    alloc: Global,
    source: &[u8],
    node: &TaskNode,
    trace: bool,
) -> Result<Vec<u8>, AllocError>
    requires { length source.now < 4294967295 }
    ensures { IfOk result (λ text. text.items ≡ spec.report_of source.now (node_seen node.now) trace) }
{
    let mut text = Vec::from_slice(alloc, node.output.as_slice())?;
    let ending = ending_line(alloc, source, &node.end)?;
    text.extend_from_slice(ending.as_bytes())?;
    if trace {
        let line = task_line(alloc, source, node)?;
        text.extend_from_slice(line.as_bytes())?;
    }
    Ok(text)
}
