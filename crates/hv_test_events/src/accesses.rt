// What the rows on accesses have in common, and that each is answered as it says.
use crate::functions::FUNCTIONS;
use crate::judging::{Judged, Phase, answer_of, is_row, unmarked};
use crate::{changes, reads};
use hv_tree::{Place, Rule};
use std::alloc::{AllocError as NoMemory, Global};
use std::process::Abort;
use std::test::Fail;

// What stands in `main` before the row.
const LOCALS: &str = "\
var x: Int = 1 var y: Int = 2 var i: Int = 0 var b: Bool = true var a: [Int] = [7, 8] var m: [[Int]] = [[1, 2], [3, 4]] \
var p: P = P(1, 2) var q: Q = Q(P(1, 2), [3]) var ps: [P] = [P(1, 2)] var c: F = F(I, 1) ";

fn source_of(alloc: Global, row: &str) -> Result<(Vec<u8>, Place), NoMemory> {
    let text = format!(in alloc; "{FUNCTIONS}fun main() {{ {LOCALS}{row}")?;
    unmarked(alloc, text.as_str())
}

// How many rows of the table are refused by the rule at their mark; none is answered otherwise.
fn refused_rows(rt: &impl Abort, alloc: Global, rule: Rule, table: &str) -> Result<usize, Fail> {
    let mut rows = 0usize;
    for row in table.lines() {
        if is_row(row) {
            let (source, place) = source_of(alloc, row)?;
            let found = answer_of(alloc, Phase::Accesses, source.as_slice())?;
            assert_eq!(rt; found, Judged::Refused(rule, place), "{row}");
            rows = rows.saturating_add(1);
        }
    }
    Ok(rows)
}

fn accepted_rows(rt: &impl Abort, alloc: Global, table: &str) -> Result<usize, Fail> {
    let mut rows = 0usize;
    for row in table.lines() {
        if is_row(row) {
            let (source, _) = source_of(alloc, row)?;
            let found = answer_of(alloc, Phase::Accesses, source.as_slice())?;
            assert_eq!(rt; found, Judged::Accepted, "{row}");
            rows = rows.saturating_add(1);
        }
    }
    Ok(rows)
}

#[test]
fn a_change_of_what_is_open_is_refused(rt: HostRuntime) -> Result<(), Fail> {
    let rows = refused_rows(&rt, rt.alloc(), Rule::X1, changes::REFUSED)?;
    assert_eq!(rt; rows, 122);
    Ok(())
}

#[test]
fn a_read_of_what_is_open_for_a_change_is_refused(rt: HostRuntime) -> Result<(), Fail> {
    let rows = refused_rows(&rt, rt.alloc(), Rule::X2, reads::REFUSED)?;
    assert_eq!(rt; rows, 111);
    Ok(())
}

#[test]
fn accesses_that_keep_apart_are_accepted(rt: HostRuntime) -> Result<(), Fail> {
    let rows = accepted_rows(&rt, rt.alloc(), changes::ACCEPTED)?;
    assert_eq!(rt; rows, 65);
    let rows = accepted_rows(&rt, rt.alloc(), reads::ACCEPTED)?;
    assert_eq!(rt; rows, 45);
    Ok(())
}
