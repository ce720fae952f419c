// The pairs of docs/RULES.md: a program of one line that violates the rule at the column, and the nearest one that doesn't.
use crate::judging::{Judged, Phase, answer_of};
use hv_tree::{Place, Rule};
use std::test::Fail;

const PAIRS: [(Phase, Rule, &str, u32, &str); 8] = [
    (
        Phase::Initialisation,
        Rule::I1,
        "fun main() { var x: Int print(x) }",
        31,
        "fun main() { var x: Int = 1 print(x) }",
    ),
    (
        Phase::Initialisation,
        Rule::I2,
        "fun f(x: set Int) { } fun main() { var y: Int f(&y) }",
        21,
        "fun f(x: set Int) { &x = 1 } fun main() { var y: Int f(&y) }",
    ),
    (
        Phase::Initialisation,
        Rule::I3,
        "fun f() -> Int { } fun main() { }",
        18,
        "fun f() -> Int { return 1 } fun main() { }",
    ),
    (
        Phase::Accesses,
        Rule::X1,
        "fun f(x: inout Int, y: inout Int) { } fun main() { var a: [Int] = [1, 2] f(&a[0], &a[0]) }",
        84,
        "fun f(x: inout Int, y: inout Int) { } fun main() { var a: [Int] = [1, 2] f(&a[0], &a[1]) }",
    ),
    (
        Phase::Accesses,
        Rule::X2,
        "fun main() { var x: Int = 1 inout y: Int = &x print(x) }",
        53,
        "fun main() { var x: Int = 1 inout y: Int = &x print(y) }",
    ),
    (
        Phase::Handles,
        Rule::S1,
        "fun f() { } fun main() { task h = spawn(9) f() }",
        48,
        "fun f() { } fun main() { task h = spawn(9) f() await h }",
    ),
    (
        Phase::Handles,
        Rule::S2,
        "fun f() { } fun main() { task h = spawn(9) f() await h await h }",
        56,
        "fun f() { } fun main() { task h = spawn(9) f() await h }",
    ),
    (
        Phase::Handles,
        Rule::S3,
        "fun f(x: inout Int) { } fun main() { var y: Int = 1 task h = spawn(9) f(&y) await h }",
        71,
        "fun f(x: Int) { } fun main() { var y: Int = 1 task h = spawn(9) f(y) await h }",
    ),
];

#[test]
fn each_pair_is_refused_and_accepted(rt: HostRuntime) -> Result<(), Fail> {
    let alloc = rt.alloc();
    for (phase, rule, refused, column, accepted) in PAIRS {
        let place = Place {
            start: column.saturating_sub(1),
        };
        let found = answer_of(alloc, phase, refused.as_bytes())?;
        assert_eq!(rt; found, Judged::Refused(rule, place), "{refused}");
        for phase in [Phase::Initialisation, Phase::Accesses, Phase::Handles] {
            let found = answer_of(alloc, phase, accepted.as_bytes())?;
            assert_eq!(rt; found, Judged::Accepted, "{accepted}");
        }
    }
    Ok(())
}
