// Sources with their answers, worked out by hand.
use crate::running::{run, source_of};
use hv_driver::Status;
use std::test::Fail;

#[test]
fn each_source_has_its_answer(rt: HostRuntime) -> Result<(), Fail> {
    let alloc = rt.alloc();
    let unready = b"refused U1 at 1:1\n".as_slice();
    let rows: [(&[u8], Status, &[u8]); 16] = [
        (b"fun main() { print(1 + 2) }", Status::Done, b"3\n"),
        (
            b"fun main() { print(9223372036854775807 + 1) }",
            Status::Trapped,
            b"trap overflow at 1:40 in 0\n",
        ),
        (b"", Status::Refused, b"refused N3 at 1:1\n"),
        (
            b"fun main() { print(1)print(2 - 5) }",
            Status::Done,
            b"1\n-3\n",
        ),
        (b"fun main() { }", Status::Done, b""),
        (
            b"fun\r\nmain ( )\n{\n\tprint(1)\n  print(9223372036854775807\n +1) }",
            Status::Trapped,
            b"1\ntrap overflow at 6:2 in 0\n",
        ),
        (
            b"fun main() { print(0 - 9223372036854775807 - 1) }",
            Status::Done,
            b"-9223372036854775808\n",
        ),
        (
            b"fun main() { print((1 + 2) * 3) // nine\n}",
            Status::Done,
            b"9\n",
        ),
        (
            b"fun main() { print(9223372036854775808) }",
            Status::Refused,
            b"refused L3 at 1:20\n",
        ),
        (
            b"fun main() { print(1 2) }",
            Status::Refused,
            b"refused P1 at 1:22\n",
        ),
        (
            b"fun main() { print(1 @) }",
            Status::Refused,
            b"refused L2 at 1:22\n",
        ),
        (b"funmain() { }", Status::Refused, b"refused P1 at 1:1\n"),
        (b"fun main() { var x: Int }", Status::Refused, unready),
        (
            b"fun main() { print(1 + true) print(y) }",
            Status::Refused,
            b"refused N2 at 1:36\n",
        ),
        (
            b"fun main() {\n  print(1 + true)\n}",
            Status::Refused,
            b"refused T1 at 2:13\n",
        ),
        (
            b"fun main() { print(1) } }",
            Status::Refused,
            b"refused P1 at 1:25\n",
        ),
    ];
    for (text, status, written) in rows {
        for most in [1, 4096] {
            let source = source_of(alloc, text, Vec::new(alloc), most)?;
            let ran = run(alloc, &["run", "F"], source, 1000)?;
            assert_eq!(rt; ran.status, status, "at {text:?} by {most}");
            assert_eq!(rt; ran.written.as_slice(), written, "at {text:?} by {most}");
        }
    }
    Ok(())
}

#[test]
fn each_command_has_its_answer(rt: HostRuntime) -> Result<(), Fail> {
    let alloc = rt.alloc();
    let two = b"fun main() { print(1) print(2) }".as_slice();
    let rows: [(&[&str], &[u8], Status, &[u8]); 8] = [
        (
            &["check", "F"],
            b"fun main() { }",
            Status::Done,
            b"accepted\n",
        ),
        (
            &["check", "F"],
            b"fun main() {",
            Status::Refused,
            b"refused P1 at 1:13\n",
        ),
        (
            &["show", "F"],
            b"fun main(){print((1+2)*3)}",
            Status::Done,
            b"fun main() {\n  print((1 + 2) * 3)\n}\n",
        ),
        (&["plain", "F"], two, Status::Done, b"1\n2\n"),
        (
            &["run", "--trace", "F"],
            two,
            Status::Done,
            b"1\n2\ntask 0 steps 2 done\n",
        ),
        (
            &["run", "F", "--steps", "1"],
            two,
            Status::Spent,
            b"1\nspent at 1:23 in 0\n",
        ),
        (
            &["plain", "--steps", "1", "F", "--trace"],
            two,
            Status::Spent,
            b"1\nspent at 1:23 in 0\ntask 0 steps 1 spent at 1:23 in 0\n",
        ),
        (
            &["plain", "F"],
            b"fun main() { inout x: Int = &y var y: Int }",
            Status::Refused,
            b"refused N2 at 1:30\n",
        ),
    ];
    for (words, text, status, written) in rows {
        let source = source_of(alloc, text, Vec::new(alloc), 4096)?;
        let ran = run(alloc, words, source, 1000)?;
        assert_eq!(rt; ran.status, status, "at {words:?}");
        assert_eq!(rt; ran.written.as_slice(), written, "at {words:?}");
    }
    Ok(())
}

#[test]
fn words_that_are_not_taken_give_the_usage_line(rt: HostRuntime) -> Result<(), Fail> {
    let alloc = rt.alloc();
    let usage = b"usage: hv check|show|plain|run|replay|gen\n".as_slice();
    let lists: [&[&str]; 8] = [
        &[],
        &["run"],
        &["run", ""],
        &["run", "-F"],
        &["run", "F", "F"],
        &["walk", "F"],
        &["F", "run"],
        &["run", "--trace"],
    ];
    for words in lists {
        let source = source_of(alloc, b"fun main() { }", Vec::new(alloc), 7)?;
        let ran = run(alloc, words, source, 1000)?;
        assert_eq!(rt; ran.status, Status::Usage, "at {words:?}");
        assert_eq!(rt; ran.written.as_slice(), usage, "at {words:?}");
    }
    Ok(())
}

#[test]
fn a_source_has_at_most_1048576_bytes(rt: HostRuntime) -> Result<(), Fail> {
    let alloc = rt.alloc();
    let mut text = vec![in alloc; 32; 1048562]?;
    text.extend_from_slice(b"fun main() { }")?;
    let source = source_of(alloc, text.as_slice(), Vec::new(alloc), 100000)?;
    assert_eq!(rt;
        run(alloc, &["run", "F"], source, 1000)?.status,
        Status::Done
    );
    text.push(32)?;
    let source = source_of(alloc, text.as_slice(), Vec::new(alloc), 100000)?;
    assert_eq!(rt;
        run(alloc, &["run", "F"], source, 1000)?.status,
        Status::Refused
    );
    Ok(())
}

#[test]
fn ten_thousand_prints_print_ten_thousand_lines(rt: HostRuntime) -> Result<(), Fail> {
    let alloc = rt.alloc();
    let mut text = b"fun main() {".to_vec(alloc)?;
    for _ in 0..10000 {
        text.extend_from_slice(b" print(4 - 5 + 1)")?;
    }
    text.extend_from_slice(b"}")?;
    let source = source_of(alloc, text.as_slice(), Vec::new(alloc), 4096)?;
    let ran = run(alloc, &["run", "F"], source, 100000)?;
    assert_eq!(rt; ran.status, Status::Done);
    assert_eq!(rt; ran.written.len(), 20000);
    Ok(())
}

#[test]
fn each_status_has_its_code(rt: HostRuntime) {
    let codes = [
        (Status::Done, 0),
        (Status::Refused, 1),
        (Status::Usage, 2),
        (Status::Trapped, 3),
        (Status::Spent, 4),
        (Status::SourceFault, 5),
        (Status::SinkFault, 6),
        (Status::NoMemory, 7),
    ];
    for (status, code) in codes {
        assert_eq!(rt; status.code(), code, "of {status:?}");
    }
}
