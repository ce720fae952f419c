// Programs that violate a rule on handles at the mark `^`, and the nearest ones that don't.
use crate::judging::{Judged, Phase, answer_of, is_row, ruled, unmarked};
use hv_tree::Place;
use std::alloc::{AllocError as NoMemory, Global};
use std::test::Fail;

// Functions that the rows spawn: without and with a result, and such as would change a place.
const FUNCTIONS: &str =
    "fun f() { } fun g() -> Int { return 1 } fun p() -> Bool { return true } fun c(x: inout Int) { } fun s(y: Int, x: set Int) { &x = y } fun t(x: Int, y: sink Int) { } ";

// What stands in `main`, and behind it.
const REFUSED: &str = "
# A handle is left where its block ends.
S1 task h = spawn(9) f() ^}
S1 { task h = spawn(9) f() ^} }
S1 if true { task h = spawn(9) f() ^} }
S1 if true { } else { task h = spawn(9) f() ^} }
S1 while true { task h = spawn(9) f() ^} }
S1 task h = spawn(9) f() if true { await h } ^}
S1 task h = spawn(9) f() if true { await h } else if false { } else { await h } ^}
S1 task h = spawn(9) f() while true { await h return; } ^}
S1 task h: Bool = spawn(9) p() print(true && await h) ^}
S1 task h: Bool = spawn(9) p() print(true || await h) ^}
S1 task h = spawn(9) f() task k = spawn(9) f() await h ^}
S1 task h = spawn(9) f() task k = spawn(9) f() await k ^}
S1 task h = spawn(9) f() task k = spawn(9) f() task l = spawn(9) f() await h await l ^}
S1 task h = spawn(9) f() var x: Int = 1 task k = spawn(9) f() { task m = spawn(9) f() await m } task l = spawn(9) f() await k await l ^}
S1 task h = spawn(9) f() var x: Int = 1 task k = spawn(9) f() { task m = spawn(9) f() ^} task l = spawn(9) f() await h await k await l }
S1 var x: Int = 1 { var y: Int = 1 task m = spawn(9) f() await m } task h = spawn(9) f() ^}
# A return ends the blocks around it.
S1 task h = spawn(9) f() ^return; }
S1 task h = spawn(9) f() if true { ^return; } await h }
S1 task h = spawn(9) f() { task k = spawn(9) f() await k ^return; } }
S1 task h = spawn(9) f() { task k = spawn(9) f() await h ^return; } }
S1 task h = spawn(9) f() while true { if false { { ^return; } } } await h }
S1 task h = spawn(9) f() while false { ^return; await h } await h }
# In a second turn a handle that the first one left counts before its task.
S1 while true { if false { ^return; } task h = spawn(9) f() } }
S1 while true { if false { { { ^return; } } } var x: Int = 1 { } task h = spawn(9) f() } }
S1 while true { if false { return; } { task h = spawn(9) f() ^} } }
# The first of all is answered.
S1 task h = spawn(9) f() ^} fun z() { task k = spawn(9) f() }
S1 if true { task h = spawn(9) f() ^} task k = spawn(9) f() }
S1 task h = spawn(9) f() if true { ^return; } await h await h }
S3 var x: Int = 1 task h = spawn(9) ^c(&x) }
S1 if true { task h = spawn(9) f() ^} var x: Int = 1 task k = spawn(9) c(&x) }
# In a lambda.
S1 var l: fun() = fun [] () { task h = spawn(9) f() ^} }
S1 var l: fun() = fun [] () { task h = spawn(9) f() await h } task k = spawn(9) l() ^}
# A task is awaited again.
S2 task h = spawn(9) f() await h ^await h }
S2 task h: Int = spawn(9) g() print(await h + ^await h) }
S2 task h = spawn(9) f() while true { ^await h } }
S2 task h = spawn(9) f() if true { await h } ^await h }
S2 task h = spawn(9) f() task k = spawn(9) f() await k await h ^await k }
S2 while true { task h = spawn(9) f() await h if true { ^await h } } }
S2 task h = spawn(9) f() while true { task k = spawn(9) f() await k ^await h } }
S2 task h: Bool = spawn(9) p() print(await h && ^await h) }
S2 task h = spawn(9) f() await h ^await h task k = spawn(9) f() }
# A task would change a place of its parent, reached or not.
S3 var x: Int = 1 task h = spawn(9) ^c(&x) await h }
S3 var x: Int = 1 task h = spawn(9) ^s(1, &x) await h }
S3 var x: Int = 1 return; task h = spawn(9) ^c(&x) await h }
S3 var x: Int = 1 while true { return; { task h = spawn(9) ^c(&x) } } }
S3 var x: Int = 1 var l: fun(inout Int) = c task h = spawn(9) ^l(&x) await h }
S3 var x: Int = 1 var b: B = B(c) task h = spawn(9) ^b.l(&x) await h } struct B { var l: fun(inout Int) }
S3 var l: fun() = fun [] () { return; var x: Int = 1 task h = spawn(9) ^c(&x) await h } }
S3 } fun z() { var x: Int = 1 task h = spawn(9) ^c(&x) await h }
";

const ACCEPTED: &str = "
}
task h = spawn(9) f() await h }
task h: Int = spawn(9) g() print(await h) }
task h = spawn(9) f() if true { await h } else { await h } }
task h = spawn(9) f() if true { await h return; } await h }
if true { return; } task h = spawn(9) f() await h }
return; task h = spawn(9) f() }
while true { task h = spawn(9) f() await h } }
while true { if false { return; } task h = spawn(9) f() await h } }
while true { task h = spawn(9) f() if true { await h return; } await h } }
task h = spawn(9) f() task k = spawn(9) f() task l = spawn(9) f() await l await k await h }
task h = spawn(9) f() { task k = spawn(9) f() await k } task l = spawn(9) f() await h await l return; }
task h: Bool = spawn(9) p() print(await h && true) }
var l: fun() = fun [] () { task h = spawn(9) f() await h } }
task h = spawn(9) t(1, 2) await h }
var x: Int = 1 c(&x) s(1, &x) }
task h = spawn(9) f() await h if false { task k = spawn(9) f() await k return; } }
";

fn source_of(alloc: Global, row: &str) -> Result<(Vec<u8>, Place), NoMemory> {
    let text = format!(in alloc; "{FUNCTIONS}fun main() {{ {row}")?;
    unmarked(alloc, text.as_str())
}

#[test]
fn the_first_violation_is_answered(rt: HostRuntime) -> Result<(), Fail> {
    let alloc = rt.alloc();
    let mut rows = 0usize;
    for line in REFUSED.lines() {
        if let Some((rule, row)) = ruled(line) {
            let (source, place) = source_of(alloc, row)?;
            let found = answer_of(alloc, Phase::Handles, source.as_slice())?;
            assert_eq!(rt; found, Judged::Refused(rule, place), "{row}");
            rows = rows.saturating_add(1);
        }
    }
    assert_eq!(rt; rows, 49);
    Ok(())
}

#[test]
fn what_violates_nothing_is_accepted(rt: HostRuntime) -> Result<(), Fail> {
    let alloc = rt.alloc();
    let mut rows = 0usize;
    for row in ACCEPTED.lines() {
        if is_row(row) {
            let (source, _) = source_of(alloc, row)?;
            let found = answer_of(alloc, Phase::Handles, source.as_slice())?;
            assert_eq!(rt; found, Judged::Accepted, "{row}");
            rows = rows.saturating_add(1);
        }
    }
    assert_eq!(rt; rows, 17);
    Ok(())
}
