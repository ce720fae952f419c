// Programs that run, with what they print and how they end, worked out by hand.
use crate::running::{run, source_of};
use hv_driver::Status;
use std::test::Fail;

const LAMBDA: &[u8] = b"fun main() {
  var k: Int = 10
  let f: fun(Int) -> Int = fun [k] (x: Int) -> Int { return x + k }
  &k = 99
  print(f(1))
}
";

#[test]
fn each_program_does_what_it_means(rt: HostRuntime) -> Result<(), Fail> {
    let alloc = rt.alloc();
    let rows: [(&[&str], &[u8], Status, &[u8]); 13] = [
        (
            &["run", "F"],
            b"struct P { var x: Int var y: Bool } fun main() { print(P(-1, true)) print([1, 2]) }",
            Status::Done,
            b"(-1, true)\n[1, 2]\n",
        ),
        (
            &["run", "F"],
            b"fun main() { print(-7 / 2) print(-7 % 2) print((-9223372036854775807 - 1) % -1) }",
            Status::Done,
            b"-3\n-1\n0\n",
        ),
        (
            &["run", "F", "--trace"],
            LAMBDA,
            Status::Done,
            b"11\ntask 0 steps 11 done\n",
        ),
        (
            &["plain", "F", "--trace", "--steps", "10"],
            LAMBDA,
            Status::Spent,
            b"spent at 3:65 in 0\ntask 0 steps 10 spent at 3:65 in 0\n",
        ),
        (
            &["run", "F"],
            b"fun f() { f() } fun main() { f() }",
            Status::Trapped,
            b"trap toodeep at 1:12 in 0\n",
        ),
        (
            &["run", "F"],
            b"fun main() { var a: [Int] = [7] print(a[1]) }",
            Status::Trapped,
            b"trap index at 1:40 in 0\n",
        ),
        (
            &["run", "F"],
            b"fun main() { print(1 / 0) }",
            Status::Trapped,
            b"trap divzero at 1:22 in 0\n",
        ),
        (
            &["run", "F"],
            b"fun main() { var a: [Int] = filled(-1, 0) }",
            Status::Trapped,
            b"trap badlength at 1:29 in 0\n",
        ),
        (
            &["run", "F"],
            b"fun main() { var a: [Int] = filled(1048577, 0) }",
            Status::Trapped,
            b"trap toolong at 1:29 in 0\n",
        ),
        (
            &["run", "F", "--trace"],
            b"fun main() { var a: [Int] = filled(1048576, 0) }",
            Status::Done,
            b"task 0 steps 1048578 done\n",
        ),
        // the two first statements, 4 for each turn, 2 for the last test, and 2 for the print
        (
            &["run", "F", "--trace"],
            b"fun main() { var i: Int = 0 while i < 2 { &i = i + 1 } print(i) }",
            Status::Done,
            b"2\ntask 0 steps 14 done\n",
        ),
        (
            &["run", "F", "--steps", "11"],
            b"fun main() { var i: Int = 0 while i < 2 { &i = i + 1 } print(i) }",
            Status::Spent,
            b"spent at 1:35 in 0\n",
        ),
        (
            &["run", "F"],
            b"fun main() { var x: Int &x = 1 print(x) }",
            Status::Refused,
            b"refused U1 at 1:1\n",
        ),
    ];
    for (words, text, status, written) in rows {
        let source = source_of(alloc, text, Vec::new(alloc), 4096)?;
        let ran = run(alloc, words, source, 1000)?;
        assert_eq!(rt; ran.status, status, "at {words:?} of {text:?}");
        assert_eq!(rt; ran.written.as_slice(), written, "at {words:?} of {text:?}");
    }
    Ok(())
}
