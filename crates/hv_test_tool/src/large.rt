// Sources near the greatest size, which nothing reads by recursion on their length.
use crate::running::{run, source_of};
use hv_driver::Status;
use std::alloc::{AllocError, Global};
use std::test::Fail;

fn repeated(
    alloc: Global,
    head: &[u8],
    part: &[u8],
    times: usize,
    tail: &[u8],
) -> Result<Vec<u8>, AllocError> {
    let mut text = head.to_vec(alloc)?;
    for _ in 0..times {
        text.extend_from_slice(part)?;
    }
    text.extend_from_slice(tail)?;
    Ok(text)
}

#[test]
fn long_chains_blocks_and_branches_are_accepted(rt: HostRuntime) -> Result<(), Fail> {
    let alloc = rt.alloc();
    let rows: [(&[u8], &[u8], usize, &[u8]); 4] = [
        (b"fun main() { print(1", b"+1", 299_999, b") }"),
        (b"fun f() { } fun main() {", b" f()", 100_000, b" }"),
        (
            b"fun main() { let a: Bool = true if a { }",
            b" else if a { }",
            50_000,
            b" }",
        ),
        (b"fun main() { print([1", b", 1", 200_000, b"]) }"),
    ];
    for (head, part, times, tail) in rows {
        let text = repeated(alloc, head, part, times, tail)?;
        let source = source_of(alloc, text.as_slice(), Vec::new(alloc), 65_536)?;
        let ran = run(alloc, &["check", "F"], source, 100)?;
        assert_eq!(rt; ran.status, Status::Done, "of {times} times {part:?}");
        assert_eq!(rt; ran.written.as_slice(), b"accepted\n".as_slice());
    }
    Ok(())
}

#[test]
fn many_declarations_are_accepted(rt: HostRuntime) -> Result<(), Fail> {
    let alloc = rt.alloc();
    let mut text = Vec::from_slice(alloc, b"fun main() { }")?;
    for number in 0..50_000 {
        let function = format!(in alloc; " fun f{number}() {{ }}")?;
        text.extend_from_slice(function.as_bytes())?;
    }
    let source = source_of(alloc, text.as_slice(), Vec::new(alloc), 65_536)?;
    let ran = run(alloc, &["check", "F"], source, 100)?;
    assert_eq!(rt; ran.status, Status::Done);
    assert_eq!(rt; ran.written.as_slice(), b"accepted\n".as_slice());
    Ok(())
}

#[test]
fn a_hundred_brackets_stand_inside_a_long_chain(rt: HostRuntime) -> Result<(), Fail> {
    let alloc = rt.alloc();
    let mut text = repeated(alloc, b"fun main() { print(1", b"+1", 200_000, b"+")?;
    for _ in 0..98 {
        text.push(b'(')?;
    }
    text.push(b'1')?;
    for _ in 0..98 {
        text.push(b')')?;
    }
    text.extend_from_slice(b") }")?;
    let source = source_of(alloc, text.as_slice(), Vec::new(alloc), 65_536)?;
    let ran = run(alloc, &["run", "F"], source, 100)?;
    assert_eq!(rt; ran.status, Status::Done);
    assert_eq!(rt; ran.written.as_slice(), b"200002\n".as_slice());
    Ok(())
}

#[test]
fn a_chain_of_300000_operands_has_its_sum(rt: HostRuntime) -> Result<(), Fail> {
    let alloc = rt.alloc();
    let text = repeated(alloc, b"fun main() { print(1", b"+1", 299_999, b") }")?;
    let source = source_of(alloc, text.as_slice(), Vec::new(alloc), 65_536)?;
    let ran = run(alloc, &["run", "F"], source, 100)?;
    assert_eq!(rt; ran.status, Status::Done);
    assert_eq!(rt; ran.written.as_slice(), b"300000\n".as_slice());
    Ok(())
}
