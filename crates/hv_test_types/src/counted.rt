// Structs at the greatest depth and with the greatest number of leaves.
use crate::judging::{Judged, answer_of, unmarked};
use hv_tree::Rule;
use std::alloc::{AllocError as NoMemory, Global};
use std::test::Fail;

// Structs of which each has the one before it as its field. The last one has the mark.
fn chain(alloc: Global, structs: usize) -> Result<String, NoMemory> {
    let mut text = format!(in alloc; "fun main() {{ }} struct S0 {{ var x: Int }}")?;
    for number in 1..structs {
        let mark = if number + 1 == structs { "^" } else { "" };
        let before = number - 1;
        let part = format!(in alloc; " struct {mark}S{number} {{ var x: S{before} }}")?;
        text.push_str(part.as_str())?;
    }
    Ok(text)
}

// A struct with 16 fields of 16 fields of 16 fields and these fields more.
fn wide(alloc: Global, more: &str) -> Result<String, NoMemory> {
    let mut text = format!(in alloc; "fun main() {{ }}")?;
    for (name, inner) in [("A", "Int"), ("B", "A"), ("^C", "B")] {
        let head = format!(in alloc; " struct {name} {{")?;
        text.push_str(head.as_str())?;
        for number in 0..16 {
            let part = format!(in alloc; " var x{number}: {inner}")?;
            text.push_str(part.as_str())?;
        }
        if name == "^C" {
            text.push_str(more)?;
        }
        text.push_str(" }")?;
    }
    Ok(text)
}

#[test]
fn structs_are_refused_beyond_their_bounds(rt: HostRuntime) -> Result<(), Fail> {
    let alloc = rt.alloc();
    let rows = [
        (chain(alloc, 99)?, false),
        (chain(alloc, 100)?, true),
        (chain(alloc, 300)?, true),
        (wide(alloc, "")?, false),
        (wide(alloc, " var y: Bool")?, true),
        (wide(alloc, " var y: [C]")?, true),
    ];
    for (text, refused) in &rows {
        let (source, place) = unmarked(alloc, text.as_str())?;
        let found = answer_of(alloc, source.as_slice())?;
        assert_eq!(rt; found == Judged::Accepted, !*refused, "at {place}");
    }
    let (source, place) = unmarked(alloc, chain(alloc, 100)?.as_str())?;
    let found = answer_of(alloc, source.as_slice())?;
    assert!(rt; matches!(found, Judged::Refused(Rule::T4, start) if start as usize == place));
    Ok(())
}
