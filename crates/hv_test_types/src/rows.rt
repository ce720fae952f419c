// Programs that violate a rule at the mark `^`, and the nearest ones that don't.
use crate::judging::{Judged, answer_of, unmarked};
use hv_tree::Rule;
use std::alloc::{AllocError as NoMemory, Global};
use std::test::Fail;

const REFUSED: [(Rule, &str); 133] = [
    (Rule::T1, "fun main() { var x: Int = ^true }"),
    (Rule::T1, "fun f() { } fun main() { print(^f()) }"),
    (
        Rule::T1,
        "struct S { } fun main() { task h: S = spawn(9) ^S() }",
    ),
    (
        Rule::T1,
        "fun f() -> Int { return 1 } fun main() { task h = spawn(9) ^f() }",
    ),
    (
        Rule::T1,
        "fun f() { } fun main() { task h = spawn(9) f() print(^await h) }",
    ),
    (Rule::T1, "fun main() { return ^1 }"),
    (Rule::T1, "fun main() { return ^f() } fun f() { }"),
    (Rule::T1, "fun f() -> Int { ^return; } fun main() { }"),
    (Rule::T1, "fun main() { var x: Int = 1 print(x^[0]) }"),
    (
        Rule::T1,
        "fun main() { var a: [Int] = [1] print(a[^true]) }",
    ),
    (Rule::T1, "fun main() { var x: Int = 1 print(^count(x)) }"),
    (Rule::T1, "fun main() { print(1 ^== true) }"),
    (Rule::T1, "fun f() { } fun main() { print(1 ^== f()) }"),
    (
        Rule::T1,
        "struct A { var x: Int } struct B { var x: Int } fun main() { print(A(1) ^== B(1)) }",
    ),
    (
        Rule::T1,
        "fun f(x: inout Int) { } fun main() { var b: Bool = true f(&^b) }",
    ),
    (Rule::T1, "fun f(x: inout Int) { } fun main() { f(^true) }"),
    (
        Rule::T1,
        "fun main() { var b: Bool = true inout x: Int = &^b }",
    ),
    (Rule::T1, "fun main() { var x: Int = 1 &x = ^true }"),
    (Rule::T1, "fun main() { if ^1 { } }"),
    (Rule::T1, "fun main() { while ^1 { } }"),
    (Rule::T1, "fun main() { print([1, ^true]) }"),
    (Rule::T1, "fun main() { print(filled(^true, 1)) }"),
    (Rule::T1, "fun main() { print(-^true) }"),
    (Rule::T1, "fun main() { print(1 + 2 - ^true) }"),
    (Rule::T1, "fun main() { print(true && ^1) }"),
    (
        Rule::T1,
        "fun main() { task h = spawn(^true) f() } fun f() { }",
    ),
    (
        Rule::T1,
        "fun main() { var f: fun(Int) = ^g } fun g(x: inout Int) { }",
    ),
    (
        Rule::T1,
        "fun g(x: Int) -> Int { return x } fun main() { print(g(^true)) }",
    ),
    (
        Rule::T1,
        "fun main() { var g: fun() -> Int = fun [] () -> Int { return ^true } }",
    ),
    (Rule::T1, "fun main() { var b: Bool = ^1 }"),
    (Rule::T1, "fun main() { print(^true + 1) }"),
    (Rule::T1, "fun main() { print(1 + ^true) }"),
    (Rule::T1, "fun main() { print(1 + -^true) }"),
    (Rule::T1, "fun main() { while ^0 { } }"),
    (
        Rule::T1,
        "struct S { } fun main() { task h: S = spawn(9) ^S() await h }",
    ),
    (
        Rule::T1,
        "fun f() -> Int { return 1 } fun main() { task h: Bool = spawn(9) ^f() await h }",
    ),
    (
        Rule::T1,
        "fun f() -> Int { return 1 } fun main() { task h = spawn(9) ^f() await h }",
    ),
    (Rule::T1, "fun main() { var x: Int = 1 return ^x.a }"),
    (
        Rule::T1,
        "fun g(v: inout Bool) { } fun main() { var x: Int = 1 g(&^x) }",
    ),
    (
        Rule::T1,
        "fun main() { var x: Int = 1 inout r: Bool = &^x }",
    ),
    (
        Rule::T1,
        "struct A { } struct B { } fun main() { print(A() ^== B()) }",
    ),
    (Rule::T1, "fun main() { var a: [Int] = [1, ^true] }"),
    (Rule::T1, "fun main() { var a: [Int] = filled(^true, 1) }"),
    (
        Rule::T1,
        "fun f() { } fun main() { print(filled(1, ^f())) }",
    ),
    (Rule::T1, "fun g(x: Int) { } fun main() { g(^true) }"),
    (
        Rule::T1,
        "fun f() { } fun main() { task h = spawn(^true) f() await h }",
    ),
    (
        Rule::T1,
        "struct S { var x: Int } fun main() { print(S(^true)) }",
    ),
    (
        Rule::T1,
        "fun g(f: fun(Int)) { } fun h(x: inout Int) { } fun main() { g(^h) }",
    ),
    (Rule::T1, "fun g(v: inout Int) { } fun main() { g(^true) }"),
    (Rule::T2, "fun f(x: Int) { } fun main() { f^() }"),
    (Rule::T2, "fun f() { } fun main() { f^(1) }"),
    (
        Rule::T2,
        "struct P { var x: Int } fun main() { print(P^(1, 2)) }",
    ),
    (
        Rule::T2,
        "fun f() -> Int { return 1 } fun main() { print(f^(1) + true) }",
    ),
    (Rule::T2, "fun g(x: Int) { } fun main() { g^() }"),
    (Rule::T2, "fun g(x: Int) { } fun main() { g^(1, 2) }"),
    (
        Rule::T2,
        "struct S { var x: Int } fun main() { var s: S = S^() }",
    ),
    (
        Rule::T2,
        "fun g(x: Int) { } fun main() { let f: fun(Int) = g f^() }",
    ),
    (
        Rule::T3,
        "struct P { var x: Int } fun main() { var p: P = P(1) print(p.^y) }",
    ),
    (Rule::T3, "fun main() { var x: Int = 1 print(x.^y) }"),
    (
        Rule::T3,
        "struct P { var x: Int } fun main() { var p: P = P(1) &p.x.^x = 1 }",
    ),
    (
        Rule::T3,
        "struct P { var x: Int } fun main() { var p: [P] = [P(1)] print(p.^x) }",
    ),
    (
        Rule::T3,
        "struct S { var x: Int } fun main() { var s: S = S(1) print(s.^y) }",
    ),
    (
        Rule::T3,
        "struct S { var x: Int } fun main() { var s: S = S(1) &s.^y = 1 }",
    ),
    (
        Rule::T3,
        "struct S { var x: Int } fun main() { var a: [S] = [S(1)] print(a[0].x.^x) }",
    ),
    (Rule::T4, "struct ^S { var s: S } fun main() { }"),
    (
        Rule::T4,
        "struct ^A { var b: [B] } struct B { var a: A } fun main() { }",
    ),
    (
        Rule::T4,
        "struct ^A { var s: S } struct S { var s: S } fun main() { }",
    ),
    (
        Rule::T4,
        "fun main() { var x: S print(x) } struct ^S { var s: [S] }",
    ),
    (Rule::T4, "struct ^S { var s: [S] } fun main() { }"),
    (
        Rule::T4,
        "struct ^A { var b: B } struct B { var b: B } fun main() { }",
    ),
    (
        Rule::T5,
        "fun f(x: inout Int) { } fun main() { var y: Int = 1 f(^y) }",
    ),
    (
        Rule::T5,
        "fun f(x: set Int) { } fun main() { var y: Int = 1 f(^y) }",
    ),
    (
        Rule::T5,
        "fun f(x: Int) { } fun main() { var y: Int = 1 f(^&y) }",
    ),
    (
        Rule::T5,
        "fun f(x: sink Int) { } fun main() { var y: Int = 1 f(^&y) }",
    ),
    (
        Rule::T5,
        "fun f(x: Int) { } fun main() { var y: Bool = true f(^&y) }",
    ),
    (
        Rule::T5,
        "struct P { var x: Int } fun main() { var y: Int = 1 print(P(^&y)) }",
    ),
    (
        Rule::T5,
        "fun g(v: inout Int) { } fun main() { var x: Int = 1 g(^x) }",
    ),
    (
        Rule::T5,
        "fun g(v: set Int) { } fun main() { var x: Int = 1 g(^x) }",
    ),
    (
        Rule::T5,
        "fun g(v: Int) { } fun main() { var x: Int = 1 g(^&x) }",
    ),
    (
        Rule::T5,
        "fun g(v: Bool) { } fun main() { var x: Int = 1 g(^&x) }",
    ),
    (
        Rule::T5,
        "fun g(v: sink Int) { } fun main() { var x: Int = 1 g(^&x) }",
    ),
    (
        Rule::T5,
        "struct S { var x: Int } fun main() { var x: Int = 1 print(S(^&x)) }",
    ),
    (Rule::T6, "fun f() { } fun main() { &^f = 1 }"),
    (
        Rule::T6,
        "fun f() -> Int { return 1 } fun main() { task h: Int = spawn(9) f() print(^h) }",
    ),
    (Rule::T6, "fun main() { var x: Int = 1 await ^x }"),
    (Rule::T6, "struct P { } fun main() { print(^P) }"),
    (Rule::T6, "fun f() { } fun main() { print(count(^f)) }"),
    (Rule::T6, "fun f(x: inout Int) { } fun main() { f(&^f) }"),
    (Rule::T6, "fun f() { } fun main() { print(^f.x) }"),
    (
        Rule::T6,
        "fun f() { } fun main() { task h = spawn(9) f() var g: fun() = fun [^h] () { } }",
    ),
    (
        Rule::T6,
        "fun g(v: inout Int) { } fun f() { } fun main() { g(&^f) }",
    ),
    (Rule::T6, "fun f() { } fun main() { inout r: Int = &^f }"),
    (
        Rule::T6,
        "fun f() { } fun main() { task h = spawn(9) f() print(^h) await h }",
    ),
    (Rule::T6, "fun f() { } fun main() { await ^f }"),
    (Rule::T6, "struct S { } fun main() { print(^S) }"),
    (
        Rule::T6,
        "fun f() { } fun main() { task h = spawn(9) f() let g: fun() = fun [^h] () { } await h }",
    ),
    (
        Rule::T6,
        "fun f() { } fun main() { task h = spawn(9) f() ^h() await h }",
    ),
    (Rule::T7, "fun f(x: Int) { &^x = 1 } fun main() { }"),
    (Rule::T7, "fun main() { let x: Int = 1 &^x = 2 }"),
    (
        Rule::T7,
        "fun main() { var x: Int = 1 var g: fun() = fun [x] () { &^x = 2 } }",
    ),
    (
        Rule::T7,
        "fun f(x: sink [Int]) { } fun main() { var a: [[Int]] = [[1]] f(^a[0]) }",
    ),
    (
        Rule::T7,
        "fun f(x: sink Int) { } fun main() { let x: Int = 1 f(^x) }",
    ),
    (
        Rule::T7,
        "fun f(x: inout Int) { } fun main() { let y: Int = 1 f(&^y) }",
    ),
    (Rule::T7, "fun g(v: Int) { &^v = 1 } fun main() { }"),
    (Rule::T7, "fun main() { let v: Int = 1 &^v = 2 }"),
    (
        Rule::T7,
        "fun main() { var k: Int = 1 let g: fun() = fun [k] () { &^k = 2 } }",
    ),
    (
        Rule::T7,
        "fun g(v: Int) { inout r: Int = &^v } fun main() { }",
    ),
    (
        Rule::T7,
        "fun i(v: inout Int) { } fun g(v: Int) { i(&^v) } fun main() { }",
    ),
    (
        Rule::T7,
        "fun s(v: sink Int) { } fun g(v: Int) { s(^v) } fun main() { }",
    ),
    (
        Rule::T7,
        "fun s(v: sink Int) { } fun main() { var a: [Int] = [1] s(^a[0]) }",
    ),
    (Rule::T8, "fun main() { var x: Int = 1 ^x() }"),
    (
        Rule::T8,
        "struct P { var x: Int } fun main() { var p: P = P(1) ^p.x() }",
    ),
    (Rule::T8, "fun main() { var a: [Int] = [1] print(^a(0)) }"),
    (
        Rule::T8,
        "struct S { var x: Int } fun main() { var s: S = S(1) ^s.x() }",
    ),
    (Rule::T8, "fun main() { var a: [Int] = [1] ^a[0]() }"),
    (Rule::T9, "fun f() { } fun main() { print(^f) }"),
    (Rule::T9, "fun f() { } fun main() { print(f ^== f) }"),
    (
        Rule::T9,
        "fun f() { } fun main() { var g: fun() = f var h: fun() = fun [^g] () { } }",
    ),
    (
        Rule::T9,
        "fun f() { } fun main() { var a: [fun()] = [f] print(^a) }",
    ),
    (
        Rule::T9,
        "struct S { var f: fun() } fun main() { var s: S = S(main) print(^s) }",
    ),
    (
        Rule::T9,
        "struct A { var b: [B] } struct B { var f: fun() } fun main() { var a: A = A([B(main)]) print(^a) }",
    ),
    (
        Rule::T9,
        "fun main() { var x: S print(^x) } struct S { var s: [S] var f: fun() }",
    ),
    (
        Rule::T9,
        "fun main() { var x: A print(^x) } struct A { var b: B } struct B { var a: [A] var c: C } struct C { var f: [fun()] }",
    ),
    (Rule::T9, "fun main() { print(^main) }"),
    (Rule::T9, "fun g() { } fun main() { print(g ^== g) }"),
    (
        Rule::T9,
        "fun g() { } fun main() { let f: fun() = g let h: fun() = fun [^f] () { } }",
    ),
    (
        Rule::T9,
        "fun g() { } fun main() { let a: [fun()] = [g] print(^a) }",
    ),
    (
        Rule::T9,
        "struct S { var f: fun() } fun g() { } fun main() { print(^S(g)) }",
    ),
    (
        Rule::T9,
        "struct S { var f: fun() } fun g() { } fun main() { print([S(g)] ^!= [S(g)]) }",
    ),
    (
        Rule::N1,
        "fun main() { print(main) } struct P { var x: Int var ^x: Int }",
    ),
    (Rule::N2, "fun main() { var x: Int = true print(^y) }"),
    (
        Rule::N2,
        "fun main() { var x: Int = 1 var g: fun() = fun [] () { print(^x) } }",
    ),
    (Rule::N2, "fun main() { print(true + 1) print(^y) }"),
];

const ACCEPTED: [&str; 59] = [
    "fun main() { var x: Int = 1 }",
    "fun f() { } fun main() { f() }",
    "fun f() -> Int { return 1 } fun main() { task h: Int = spawn(9) f() print(await h) }",
    "fun f() { } fun main() { task h = spawn(9) f() await h }",
    "fun main() { return; }",
    "fun f() -> Int { return 1 } fun main() { print(1 == f()) }",
    "fun main() { var a: [Int] = [1, 2] print(a[0]) print(count(a)) }",
    "struct A { var x: Int } fun main() { print(A(1) == A(2)) }",
    "fun f(x: inout Int) { &x = 1 } fun main() { var y: Int = 1 f(&y) inout z: Int = &y }",
    "fun main() { if true { } while false { } }",
    "fun main() { print(filled(2, true)) print(-1) print(1 + 2 - 3) print(!(1 < 2) && true) }",
    "fun main() { var f: fun(inout Int) = g } fun g(x: inout Int) { }",
    "fun main() { var g: fun() -> Int = fun [] () -> Int { return 1 } print(g()) }",
    "struct P { var x: Int var y: Int } fun main() { print(P(1, 2)) }",
    "struct P { var x: Int } fun main() { var p: P = P(1) print(p.x) &p.x = 1 }",
    "struct P { var x: Int } fun main() { var p: [P] = [P(1)] print(p[0].x) }",
    "struct S { var f: fun(S) -> S } fun main() { }",
    "struct A { var b: [B] } struct B { } fun main() { }",
    "fun f(x: set Int) { &x = 1 } fun main() { var y: Int f(&y) }",
    "fun f(x: sink Int) { &x = 1 } fun main() { var y: Int = 1 f(y) f(2) }",
    "struct P { } fun main() { print(P()) }",
    "fun main() { var x: Int = 1 var g: fun() = fun [x] () { print(x) } }",
    "fun f(x: sink [Int]) { } fun main() { var a: [[Int]] = [[1]] f([1]) }",
    "fun f(x: [Int]) { } fun main() { var a: [[Int]] = [[1]] f(a[0]) }",
    "fun f() { } fun main() { var g: fun() = f g() }",
    "struct P { var f: fun() } fun main() { var p: P = P(main) p.f() }",
    "fun main() { var a: [Int] = [1] print(a[0]) print(a == a) }",
    "struct A { var b: [B] } struct B { var x: Int } fun main() { var a: A = A([B(1)]) print(a) }",
    "fun f(x: Int) -> Bool { return x == 1 } fun main() { let b: Bool = f(1) print(b) }",
    "fun main() { { var x: Int = 1 print(x) } { var y: Bool = true print(y) } }",
    "fun main() { var b: Bool = true }",
    "fun main() { print(1 + 1) }",
    "fun main() { var a: [Int] = [1] print(a[0]) }",
    "fun f() -> Int { return 1 } fun main() { print(f()) }",
    "fun f() -> Int { return 1 } fun main() { task h: Int = spawn(9) f() await h }",
    "fun f() -> Int { return 1 } fun main() { return; }",
    "fun main() { var x: [Int] = [1] print(count(x)) }",
    "fun g(v: inout Int) { } fun main() { var x: Int = 1 g(&x) }",
    "fun main() { var x: Int = 1 inout r: Int = &x }",
    "struct A { } fun main() { print(A() == A()) }",
    "fun main() { var a: [Int] = [1, 2] }",
    "fun main() { var a: [Int] = filled(1, 1) }",
    "fun main() { var x: Int = 1 &x = 2 }",
    "fun g(x: Int) { } fun main() { g(1) }",
    "struct S { var x: Int } fun main() { print(S(1)) }",
    "fun g(f: fun(Int)) { } fun h(x: Int) { } fun main() { g(h) }",
    "struct S { var x: Int } fun main() { var s: S = S(1) }",
    "fun g(x: Int) { } fun main() { let f: fun(Int) = g f(1) }",
    "struct S { var x: Int } fun main() { var s: S = S(1) print(s.x) }",
    "struct S { var x: Int } fun main() { var s: S = S(1) &s.x = 1 }",
    "fun g(v: set Int) { &v = 1 } fun main() { var x: Int = 1 g(&x) }",
    "fun g(v: sink Int) { } fun main() { var x: Int = 1 g(x) }",
    "struct S { var x: Int } fun main() { var x: Int = 1 print(S(x)) }",
    "struct S { } fun f() { } fun main() { task h = spawn(9) f() print(S()) await h }",
    "fun g(v: sink Int) { &v = 1 } fun main() { var k: Int = 1 &k = 2 }",
    "fun i(v: inout Int) { } fun g(v: inout Int) { i(&v) } fun main() { }",
    "fun s(v: sink Int) { } fun g(v: sink Int) { s(v) } fun main() { }",
    "fun g() { } fun main() { let f: fun() = g f() }",
    "struct S { var f: fun() } fun g() { } fun main() { let s: S = S(g) s.f() print(1 == 1) }",
];

fn is_refused(alloc: Global, rule: Rule, text: &str) -> Result<bool, NoMemory> {
    let (source, place) = unmarked(alloc, text)?;
    match answer_of(alloc, source.as_slice())? {
        Judged::Refused(found, start) => Ok(found == rule && start as usize == place),
        _ => Ok(false),
    }
}

#[test]
fn a_program_is_refused_at_its_first_violation(rt: HostRuntime) -> Result<(), Fail> {
    let alloc = rt.alloc();
    for (rule, text) in &REFUSED {
        assert!(rt; is_refused(alloc, *rule, text)?, "{text}");
    }
    for text in &ACCEPTED {
        assert_eq!(rt;
            answer_of(alloc, text.as_bytes())?,
            Judged::Accepted,
            "{text}"
        );
    }
    Ok(())
}
