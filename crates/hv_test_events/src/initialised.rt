// Programs that violate a rule on initialisation at the mark `^`, and the nearest ones that don't. None of them has to do
// with accesses or handles.
use crate::functions::FUNCTIONS;
use crate::judging::{Judged, Phase, answer_of, is_row, ruled, unmarked};
use hv_tree::Place;
use std::alloc::{AllocError as NoMemory, Global};
use std::process::Abort;
use std::test::Fail;

// What stands in `main` before the row.
const LOCALS: &str = "var y: Int = 2 var i: Int = 0 var b: Bool = true ";

const REFUSED: &str = "
# What has no value yet is used, passed on or moved.
I1 var x: Int print(^x) }
I1 var x: Int print(1 + ^x) }
I1 var x: Int print([1, ^x]) }
I1 var x: Int print(filled(1, ^x)) }
I1 var x: Int &y = ^x }
I1 var x: Int &x = ^x }
I1 var x: Int &x = ^x + 1 }
I1 var x: Int var z: Int = ^x }
I1 var x: Int let r: Int = ^x }
I1 var x: Int inout r: Int = &^x }
I1 var x: Int L(^x) }
I1 var x: Int I(&^x) }
I1 var x: Int K(^x) }
I1 var x: Int print(P(1, ^x)) }
I1 var x: Int task t = spawn(^x) N() await t }
I1 var x: Int task t = spawn(9) L(^x) await t }
I1 var x: Int task t = spawn(9) K(^x) await t }
I1 var c: Bool if ^c { } }
I1 var c: Bool while ^c { } }
I1 var c: Bool print(b && ^c) }
I1 var c: Bool print(b || ^c) }
I1 var a: [Int] print(count(^a)) }
I1 var a: [Int] print(^a[0]) }
I1 var a: [Int] I(&^a[0]) }
I1 var a: [Int] = [1] var j: Int print(a[^j]) }
I1 var a: [Int] = [1] var j: Int &a[^j] = 1 }
I1 var x: Int var l: fun() -> Int = fun [^x] () -> Int { return x } }
I1 var l: fun() ^l() }
I1 var c: F ^c.f(&y) }
I1 var e: E print(^e) }
I1 var x: Int { print(^x) } &x = 1 }
# An element is changed where there is no array.
I1 var a: [Int] &^a[0] = 1 }
I1 var a: [Int] S(&^a[i]) }
I1 var q: Q &q.p = P(1, 2) &^q.a[0] = 1 }
I1 var ps: [P] &^ps[0].x = 1 }
I1 var ps: [P] &^ps[i].x = 1 &ps = [P(1, 2)] }
# Parts.
I1 var p: P &p.x = 1 print(^p) }
I1 var p: P &p.x = 1 print(^p.y) }
I1 var p: P &p.x = 1 I(&^p.y) }
I1 var p: P &p.x = 1 let r: P = ^p }
I1 var p: P &p.x = 1 inout r: P = &^p }
I1 var p: P &p.x = 1 C(^p) }
I1 var p: P S(&p.x) print(^p) }
I1 var q: Q &q.p.x = 1 print(q.p.x) print(^q.p) }
I1 var q: Q &q.p = P(1, 2) print(q.p) print(^q) }
I1 var q: Q &q.a = [1] print(q.a[0]) print(^q.p.x) }
# What was moved.
I1 var x: Int = 1 K(x) print(^x) }
I1 var x: Int = 1 K(x) K(^x) }
I1 var x: Int = 1 K(x) L(^x) }
I1 var x: Int = 1 K(x) I(&^x) }
I1 var x: Int = 1 KK(x, ^x) }
I1 var x: Int = 1 KL(x, ^x) }
I1 var x: Int = 1 KI(x, &^x) }
I1 var x: Int = 1 print(TK(x) && ^x == 1) }
I1 var x: Int = 1 task t = spawn(9) K(x) await t print(^x) }
I1 var p: P = P(1, 2) K(p.x) print(^p) }
I1 var p: P = P(1, 2) K(p.x) print(^p.x) }
I1 var p: P = P(1, 2) K(p.x) C(^p) }
I1 var p: P = P(1, 2) C(p) print(^p.x) }
I1 var p: P = P(1, 2) C(p) &p.x = 1 print(^p) }
I1 var q: Q = Q(P(1, 2), [3]) C(q.p) print(q.a) print(^q) }
# Either side of each test counts, whatever it gives.
I1 var x: Int if true { &x = 1 } print(^x) }
I1 var x: Int if b { } else { &x = 1 } print(^x) }
I1 var x: Int if b { &x = 1 } else if b { &x = 1 } print(^x) }
I1 var x: Int if b { &x = 1 } else if b { } else { &x = 1 } print(^x) }
I1 var x: Int = 1 if b { K(x) } print(^x) }
I1 var x: Int = 1 if b { } else { K(x) } print(^x) }
I1 var x: Int if b { return; } print(^x) }
I1 var x: Int print(b && TS(&x)) print(^x) }
I1 var x: Int print(b || TS(&x)) print(^x) }
I1 var x: Int if b && TS(&x) { print(^x) } }
I1 var p: P if b { &p.x = 1 } else { &p.y = 1 } print(^p) }
# So does any number of turns.
I1 var x: Int while b { &x = 1 } print(^x) }
I1 var x: Int while b { print(^x) &x = 1 } }
I1 var x: Int = 1 while b { K(^x) } }
I1 var x: Int = 1 while b { print(^x) K(x) } }
I1 var x: Int = 1 while b { K(^x) if b { &x = 1 } } }
I1 var x: Int = 1 while b { K(^x) } print(x) }
I1 var x: Int = 1 while b { while b { K(^x) } &x = 1 } }
I1 var x: Int = 1 while TK(^x) { } }
I1 var x: Int = 1 while b { if b { K(^x) } } }
I1 while b { var x: Int if b { &x = 1 } print(^x) } }
I1 var x: Int while b { while b { &x = 1 } print(^x) } }
# A declaration fills its local on the runs that come by it, whatever is in sight.
I1 print(^x) var x: Int = 1 }
I1 var z: Int = ^x var x: Int = 1 }
I1 if b { var x: Int = 1 } print(^x) }
I1 if b { var x: Int = 1 } else { print(^x) } }
I1 while b { var x: Int = 1 } print(^x) }
I1 while b { print(^x) var x: Int = 1 } }
# The first by its place is answered; what violates a rule has its effect in the turn behind.
I1 var x: Int print(^x) print(x) }
I1 var p: P &p.x = 1 while b { print(^p.x) C(p) } }
I1 var x: Int print(^x) } fun z(v: set Int) { }
I1 inout r: Int = &y K(r) print(^r) }
# In other bodies.
I1 } fun z(v: set Int) { print(^v) &v = 1 }
I1 } fun z(v: set P) { &v.x = 1 print(^v) &v.y = 1 }
I1 } fun z(v: sink Int) { K(v) K(^v) }
I1 } fun z(v: inout Int) { K(v) print(^v) &v = 1 }
I1 } fun z() -> Int { var x: Int return ^x }
I1 } fun z() -> Int { var x: Int print(^x) }
I1 var l: fun() -> Int = fun [] () -> Int { var x: Int return ^x } }
# A parameter that is written back is left without a value.
I2 } fun z(v: set Int) { ^}
I2 } fun z(v: set P) { &v.x = 1 ^}
I2 } fun z(c: Bool, v: set Int) { if c { &v = 1 } ^}
I2 } fun z(c: Bool, v: set Int) { if c { ^return; } &v = 1 }
I2 } fun z(c: Bool, v: set Int) { while c { &v = 1 } ^}
I2 } fun z(v: set Int) { &v = 1 K(v) ^}
I2 } fun z(v: set Int) -> Int { ^return 1 }
I2 } fun z(v: inout Int) { K(v) ^}
I2 } fun z(v: inout P) { K(v.x) ^}
I2 } fun z(v: inout Int) { K(v) ^return; }
I2 } fun z(v: inout Int) { if true { K(v) ^return; } K(v) }
I2 var l: fun(set Int) = fun [] (v: set Int) { ^} }
I2 } fun z(v: set Int) { ^} fun w(v: set Int) { }
# A binding that is written back is.
I2 inout r: Int = &y K(r) ^}
I2 { inout r: Int = &y K(r) ^} }
I2 if b { inout r: Int = &y K(r) ^} }
I2 while b { inout r: Int = &y K(r) ^} }
I2 inout r: Int = &y if b { K(r) } ^}
I2 inout r: Int = &y while b { K(r) &r = 1 K(r) &r = 1 } K(r) ^}
I2 inout r: Int = &y K(r) ^return; }
I2 inout r: Int = &y { { K(r) ^return; } } }
I2 inout r: Int = &y if b { K(r) ^return; } }
I2 inout r: Int = &y { inout s: Int = &r K(s) ^} }
I2 var p: P = P(1, 2) inout r: P = &p K(r.x) ^}
# A return that stands before the binding doesn't end it, in a loop's second turn either.
I2 while b { if b { return; } inout r: Int = &y K(r) ^} }
# The end of a body with a result is reached.
I3 } fun z() -> Int { ^}
I3 } fun z() -> Int { print(1) ^}
I3 } fun z(c: Bool) -> Int { if c { return 1 } ^}
I3 } fun z(c: Bool) -> Int { if c { return 1 } else { } ^}
I3 } fun z(c: Bool) -> Int { if c { return 1 } else if c { return 2 } ^}
I3 } fun z() -> Int { while true { return 1 } ^}
I3 } fun z() -> Int { while true { } ^}
I3 var l: fun() -> Int = fun [] () -> Int { ^} }
# At one place the first rule is answered.
I2 } fun z(v: set Int) -> Int { ^}
I3 } fun z(v: set Int) -> Int { &v = 1 ^}
";

const ACCEPTED: &str = "
}
var x: Int }
var x: Int = 1 print(x) }
var x: Int &x = 1 print(x) }
var x: Int { &x = 1 } print(x) }
var x: Int S(&x) print(x) }
var a: [Int] &a = [1] &a[0] = 2 S(&a[0]) I(&a[i]) print(count(a)) }
var l: fun() &l = N l() }
var e: E &e = E() print(e) }
# Parts.
var p: P &p.x = 1 print(p.x) }
var p: P &p.x = 1 &p.y = 2 print(p) }
var p: P &p = P(1, 2) print(p.x) }
var p: P S(&p.x) S(&p.y) print(p) }
var p: P &p.x = 1 inout r: Int = &p.x }
var q: Q &q.p.x = 1 &q.p.y = 1 print(q.p) }
var q: Q &q.a = [1] &q.a[0] = 2 }
var ps: [P] = [P(1, 2)] &ps[0].x = 3 print(ps) }
# What was moved gets a value, or isn't used.
var x: Int = 1 K(x) }
var x: Int = 1 K(x) &x = 2 print(x) }
var x: Int = 1 K(x) S(&x) print(x) }
var x: Int = 1 LK(x + 0, x) }
var p: P = P(1, 2) K(p.x) print(p.y) }
var p: P = P(1, 2) K(p.x) K(p.y) }
var p: P = P(1, 2) K(p.x) &p.x = 1 print(p) }
var p: P = P(1, 2) C(p) &p.x = 1 &p.y = 2 print(p) }
# Both sides, and each turn.
var x: Int if b { &x = 1 } else { &x = 2 } print(x) }
var x: Int if b { &x = 1 } else if b { &x = 2 } else { &x = 3 } print(x) }
var x: Int if b { &x = 1 print(x) } }
var x: Int if b { &x = 1 } else { return; } print(x) }
var x: Int = 1 if b { K(x) } else { K(x) } }
var x: Int = 1 if b { K(x) &x = 1 } print(x) }
var x: Int = 1 if b { K(x) return; } print(x) }
var x: Int print(TS(&x) && b) print(x) }
var x: Int print(TS(&x) && x == 1) }
var x: Int if TS(&x) { print(x) } }
var x: Int while TS(&x) { print(x) } print(x) }
var x: Int while b { &x = 1 print(x) } }
var x: Int = 1 while b { K(x) &x = 1 } print(x) }
while b { var x: Int &x = 1 K(x) } }
while b { var x: Int = 1 K(x) } }
var x: Int = 1 while b { K(x) return; } print(x) }
# No run comes behind a return.
var x: Int return; print(x) }
var x: Int if b { return; } else { return; } print(x) }
# What is written back has a value.
inout r: Int = &y K(r) &r = 1 }
inout r: Int = &y if b { K(r) &r = 1 return; } }
var p: P = P(1, 2) inout r: P = &p K(r.x) &r.x = 1 }
inout r: Int = &y { inout s: Int = &r K(s) &s = 1 } }
} fun z(v: set Int) { &v = 1 }
} fun z(v: set Int) { S(&v) }
} fun z(v: set P) { &v.x = 1 &v.y = 2 }
} fun z(c: Bool, v: set Int) { if c { &v = 1 return; } &v = 2 }
} fun z(v: inout Int) { K(v) &v = 1 }
} fun z(v: inout Int) { }
} fun z(c: Bool, v: inout Int) { if c { return; } inout r: Int = &v while c { if c { return; } print(r) } }
# A local keeps its value behind its block.
{ var x: Int = 1 } print(x) }
if b { var x: Int = 1 print(x) } else { var z: Int = 2 print(z) } }
# What isn't written back may be left without one.
} fun z(v: sink Int) { K(v) }
} fun z(v: sink P) { K(v.x) }
if true { return; } inout r: Int = &y }
{ inout r: Int = &y } var x: Int return; }
# The end isn't reached.
} fun z() -> Int { return 1 }
} fun z() -> Int { { return 1 } }
} fun z(c: Bool) -> Int { if c { return 1 } else { return 2 } }
} fun z(c: Bool) -> Int { while c { return 1 } return 2 }
} fun z() -> Int { return 1 print(2) }
var l: fun() -> Int = fun [] () -> Int { return 1 } }
";

// A place for `set` has no value while the call runs, and neither may it be read or changed: both rules are violated there.
const FILLED: &str = "
I1 X2 var x: Int = 1 SL(&x, ^x) }
I1 X2 var x: Int = 1 SL(&x, 1 + ^x) }
I1 X1 var x: Int = 1 SI(&x, &^x) }
I1 X1 var x: Int = 1 SL(&x, G(&^x)) }
I1 X2 var p: P = P(1, 2) SD(&p.x, ^p) }
I1 X2 var p: P = P(1, 2) SL(&p.x, ^p.x) }
";

fn source_of(alloc: Global, row: &str) -> Result<(Vec<u8>, Place), NoMemory> {
    let text = format!(in alloc; "{FUNCTIONS}fun main() {{ {LOCALS}{row}")?;
    unmarked(alloc, text.as_str())
}

// Neither the rules on accesses nor those on handles refuse the row.
fn accept_others(rt: &impl Abort, alloc: Global, row: &str, source: &[u8]) -> Result<(), Fail> {
    for phase in [Phase::Accesses, Phase::Handles] {
        let found = answer_of(alloc, phase, source)?;
        assert_eq!(rt; found, Judged::Accepted, "{row}");
    }
    Ok(())
}

#[test]
fn the_first_violation_is_answered(rt: HostRuntime) -> Result<(), Fail> {
    let alloc = rt.alloc();
    let mut rows = 0usize;
    for line in REFUSED.lines() {
        if let Some((rule, row)) = ruled(line) {
            let (source, place) = source_of(alloc, row)?;
            let found = answer_of(alloc, Phase::Initialisation, source.as_slice())?;
            assert_eq!(rt; found, Judged::Refused(rule, place), "{row}");
            accept_others(&rt, alloc, row, source.as_slice())?;
            rows = rows.saturating_add(1);
        }
    }
    assert_eq!(rt; rows, 135);
    Ok(())
}

#[test]
fn what_violates_nothing_is_accepted(rt: HostRuntime) -> Result<(), Fail> {
    let alloc = rt.alloc();
    let mut rows = 0usize;
    for row in ACCEPTED.lines() {
        if is_row(row) {
            let (source, _) = source_of(alloc, row)?;
            let found = answer_of(alloc, Phase::Initialisation, source.as_slice())?;
            assert_eq!(rt; found, Judged::Accepted, "{row}");
            accept_others(&rt, alloc, row, source.as_slice())?;
            rows = rows.saturating_add(1);
        }
    }
    assert_eq!(rt; rows, 66);
    Ok(())
}

// Two rules are violated at the mark.
#[test]
fn a_place_that_a_call_fills_is_no_ones(rt: HostRuntime) -> Result<(), Fail> {
    let alloc = rt.alloc();
    let mut rows = 0usize;
    for line in FILLED.lines() {
        if let Some((first, rest)) = ruled(line)
            && let Some((second, row)) = ruled(rest)
        {
            let (source, place) = source_of(alloc, row)?;
            let found = answer_of(alloc, Phase::Initialisation, source.as_slice())?;
            assert_eq!(rt; found, Judged::Refused(first, place), "{row}");
            let found = answer_of(alloc, Phase::Accesses, source.as_slice())?;
            assert_eq!(rt; found, Judged::Refused(second, place), "{row}");
            let found = answer_of(alloc, Phase::Handles, source.as_slice())?;
            assert_eq!(rt; found, Judged::Accepted, "{row}");
            rows = rows.saturating_add(1);
        }
    }
    assert_eq!(rt; rows, 6);
    Ok(())
}
