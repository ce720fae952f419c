// What programs do: in a source `@` stands before the place of its trap, and `^` before the place at which a run with one
// step less than it uses is spent. Then its whole report, and what the shorter run has printed.
use crate::running::run;
use hv_task_tree::End;
use std::alloc::{AllocError as NoMemory, Global};
use std::sync::Wait;
use std::test::Fail;
use std::thread::Threads;

// A source without its marks, and where they stood.
#[derive(Drop)]
struct Marked {
    source: String,
    trap: usize,
    spent: usize,
}

fn unmarked(alloc: Global, text: &str) -> Result<Marked, NoMemory> {
    let mut marked = Marked {
        source: String::new(alloc),
        trap: 0,
        spent: 0,
    };
    for character in text.chars() {
        match character {
            '@' => marked.trap = marked.source.len(),
            '^' => marked.spent = marked.source.len(),
            _ => marked.source.push(character)?,
        }
    }
    Ok(marked)
}

// The report of a run with so many steps: its output, how it ended and the steps that it used.
fn report(
    rt: &(impl AllocGlobal + Threads + Wait),
    source: &str,
    steps: u64,
) -> Result<Option<String>, NoMemory> {
    let alloc = rt.alloc();
    let Some(node) = run(rt, source, steps)? else {
        return Ok(None);
    };
    let Ok(output) = String::from_utf8(node.output.into_vec()) else {
        return Ok(None);
    };
    let used = node.used;
    let report = match node.end {
        End::Done(_) => format!(in alloc; "{output}done {used}")?,
        End::Trap(kind, at) => format!(in alloc; "{output}{kind:?} {} {used}", at.start)?,
        End::Spent(at) => format!(in alloc; "{output}spent {} {used}", at.start)?,
    };
    Ok(Some(report))
}

// What a source does.
struct Row {
    source: &'static str,
    output: &'static str,
    /// Its trap, or done.
    ending: &'static str,
    used: u64,
    /// The last cost that it pays.
    last: u64,
    /// The output before that.
    shorter: &'static str,
}

const ROWS: [Row; 36] = [
    Row {
        source: "fun main() { print(7 / -2) print(-7 / 2) ^print(-7 % 2) }",
        output: "-3\n-3\n-1\n",
        ending: "done",
        used: 3,
        last: 1,
        shorter: "-3\n-3\n",
    },
    Row {
        source: "fun main() { ^print((-9223372036854775807 - 1) % -1) }",
        output: "0\n",
        ending: "done",
        used: 1,
        last: 1,
        shorter: "",
    },
    Row {
        source: "fun main() { ^print((-9223372036854775807 - 1) @/ -1) }",
        output: "",
        ending: "Overflow",
        used: 1,
        last: 1,
        shorter: "",
    },
    Row {
        source: "fun main() { ^print(9223372036854775807 @+ 1) }",
        output: "",
        ending: "Overflow",
        used: 1,
        last: 1,
        shorter: "",
    },
    Row {
        source: "fun main() { ^print(1 @/ 0) }",
        output: "",
        ending: "DivZero",
        used: 1,
        last: 1,
        shorter: "",
    },
    Row {
        source: "fun main() { print(5) ^print(1 @% 0) }",
        output: "5\n",
        ending: "DivZero",
        used: 2,
        last: 1,
        shorter: "5\n",
    },
    Row {
        source: "fun main() {\n  var x: Int\n  if true { &x = 1 } else { &x = 2 }\n  print(^x)\n}\n",
        output: "1\n",
        ending: "done",
        used: 5,
        last: 1,
        shorter: "",
    },
    Row {
        source: "fun f(a: inout Int, b: inout Int) { &a = 1 &b = 2 }\nfun main() {\n  var a: [Int] = [7, 8]\n  f(&a[0], &a[1])\n  print(^a)\n}\n",
        output: "[1, 2]\n",
        ending: "done",
        used: 9,
        last: 3,
        shorter: "",
    },
    Row {
        source: "struct P { var x: Int var y: Int }\nfun main() {\n  var p: P = P(1, 2)\n  inout r: Int = &p.x\n  print(^p.y)\n}\n",
        output: "2\n",
        ending: "done",
        used: 4,
        last: 1,
        shorter: "",
    },
    Row {
        source: "fun main() { var a: [Int] = [7] ^print(a@[1]) }",
        output: "",
        ending: "Index",
        used: 2,
        last: 1,
        shorter: "",
    },
    Row {
        source: "fun main() { var a: [Int] = [7] ^print(a@[-1]) }",
        output: "",
        ending: "Index",
        used: 2,
        last: 1,
        shorter: "",
    },
    Row {
        source: "fun main() { var a: [Int] = [7] ^&a@[3] = 7 }",
        output: "",
        ending: "Index",
        used: 2,
        last: 1,
        shorter: "",
    },
    Row {
        source: "fun main() { ^var a: [Int] = @filled(-1, 0) }",
        output: "",
        ending: "BadLength",
        used: 1,
        last: 1,
        shorter: "",
    },
    Row {
        source: "fun main() { ^var a: [Int] = @filled(1048577, 0) }",
        output: "",
        ending: "TooLong",
        used: 1,
        last: 1,
        shorter: "",
    },
    Row {
        source: "fun main() { var a: [Int] = ^filled(1048576, 0) }",
        output: "",
        ending: "done",
        used: 1048578,
        last: 1048577,
        shorter: "",
    },
    Row {
        source: "fun main() { var a: [Int] = filled(0, 0) ^print(count(a)) }",
        output: "0\n",
        ending: "done",
        used: 3,
        last: 1,
        shorter: "",
    },
    Row {
        source: "fun main() {\n  var k: Int = 10\n  let f: fun(Int) -> Int = fun [k] (x: Int) -> Int { return x + ^k }\n  &k = 99\n  print(f(1))\n}\n",
        output: "11\n",
        ending: "done",
        used: 11,
        last: 1,
        shorter: "",
    },
    Row {
        source: "fun make(x: set Int) { &x = 5 } fun main() { var a: Int make(&a) print(^a) }",
        output: "5\n",
        ending: "done",
        used: 6,
        last: 1,
        shorter: "",
    },
    Row {
        source: "fun f() { ^f@() } fun main() { f() }",
        output: "",
        ending: "TooDeep",
        used: 1999,
        last: 1,
        shorter: "",
    },
    Row {
        source: "fun say(n: Int) -> Int { print(n) return n }\nfun f(a: Int, b: Int) { }\nfun main() { f^(say(1), say(2)) }\n",
        output: "1\n2\n",
        ending: "done",
        used: 12,
        last: 1,
        shorter: "1\n2\n",
    },
    Row {
        source: "fun twice(f: inout fun(Int) -> Int) -> Int { &f = fun [] (x: Int) -> Int { return x + x } return 10 }\nfun main() {\n  var f: fun(Int) -> Int = fun [] (x: Int) -> Int { return ^x + 1 }\n  print(f(twice(&f)))\n}\n",
        output: "11\n",
        ending: "done",
        used: 9,
        last: 1,
        shorter: "",
    },
    Row {
        source: "fun g() -> Int { print(8) ^return 0 }\nfun main() { var a: [[Int]] = [[7]] print(a@[5][g()]) }\n",
        output: "8\n",
        ending: "Index",
        used: 5,
        last: 1,
        shorter: "8\n",
    },
    Row {
        source: "fun main() { var x: Int = 1 let y: Int = x &x = 2 print(^y) }",
        output: "1\n",
        ending: "done",
        used: 5,
        last: 1,
        shorter: "",
    },
    Row {
        source: "fun no() -> Bool { print(0) return false }\nfun main() { print(false && no()) ^print(true || no()) }\n",
        output: "false\ntrue\n",
        ending: "done",
        used: 2,
        last: 1,
        shorter: "false\n",
    },
    Row {
        source: "fun no() -> Bool { print(0) ^return false }\nfun main() { print(true && no()) }\n",
        output: "0\nfalse\n",
        ending: "done",
        used: 4,
        last: 1,
        shorter: "0\n",
    },
    Row {
        source: "fun sum(a: [Int], lo: Int, hi: Int, k: Int) -> Int {\n  if hi - lo <= 25000 {\n    var s: Int = 0\n    var i: Int = lo\n    while i < hi {\n      &s = s + a[i]\n      &i = i + 1\n    }\n    return ^s\n  }\n  return 0\n}\nfun main() {\n  var a: [Int] = filled(25000, 0)\n  var i: Int = 0\n  while i < count(a) {\n    &a[i] = i\n    &i = i + 1\n  }\n  print(sum(a, 0, 25000, 2000000))\n}\n",
        output: "312487500\n",
        ending: "done",
        used: 425020,
        last: 1,
        shorter: "",
    },
    Row {
        source: "fun eat(v: sink Int) { print(v) }\nfun main() { var x: Int = 1 eat(x) &x = 2 print(^x) }\n",
        output: "1\n2\n",
        ending: "done",
        used: 8,
        last: 1,
        shorter: "1\n",
    },
    Row {
        source: "struct P { var x: Int var y: [Bool] }\nfun main() { let p: P = P(1, [true, false]) print(^p) }\n",
        output: "(1, [true, false])\n",
        ending: "done",
        used: 7,
        last: 5,
        shorter: "",
    },
    Row {
        source: "fun f(x: inout Int) -> Int { inout y: Int = &x &y = 3 return 4 }\nfun main() { var a: Int = 1 print(f(&a)) print(^a) }\n",
        output: "4\n3\n",
        ending: "done",
        used: 8,
        last: 1,
        shorter: "4\n",
    },
    Row {
        source: "fun main() { var i: Int = 0 while ^i < 2 { &i = i + 1 } }",
        output: "",
        ending: "done",
        used: 12,
        last: 1,
        shorter: "",
    },
    Row {
        source: "fun main() { if false { print(1) } else if true { ^print(2) } else { print(3) } }",
        output: "2\n",
        ending: "done",
        used: 2,
        last: 1,
        shorter: "",
    },
    Row {
        source: "fun main() { var a: [Int] = [1, 2, 3] &a[1] = 7 print(^a) }",
        output: "[1, 7, 3]\n",
        ending: "done",
        used: 7,
        last: 4,
        shorter: "",
    },
    Row {
        source: "fun apply(f: fun(Int) -> Int) -> Int { return f(2) }\nfun main() { print(apply(fun [] (x: Int) -> Int { return x * ^x })) }\n",
        output: "4\n",
        ending: "done",
        used: 8,
        last: 1,
        shorter: "",
    },
    Row {
        source: "fun main() { ^print(-5) }",
        output: "-5\n",
        ending: "done",
        used: 1,
        last: 1,
        shorter: "",
    },
    Row {
        source: "fun main() { var b: [Int] = [1, 2] var a: [Int] = b &a[0] = 5 ^print(count(b)) }",
        output: "2\n",
        ending: "done",
        used: 7,
        last: 1,
        shorter: "",
    },
    // of a capture, a `let` argument and an `inout` one, all changed inside, the last alone goes back
    Row {
        source: "struct P { var x: Int var y: Int }\nfun main() {\n  var p: P = P(1, 2)\n  var k: Int = 5\n  var n: Int = 7\n  let f: fun(Int, inout Int) -> Int = fun [k] (a: Int, b: inout Int) -> Int { &k = k + 30 &a = a + 40 &b = b + 50 return k + a }\n  print(f(n, &p.y))\n  print(p)\n  print(k + ^n)\n}\n",
        output: "82\n(1, 52)\n12\n",
        ending: "done",
        used: 25,
        last: 1,
        shorter: "82\n(1, 52)\n",
    },
];

// The whole report of a row.
fn expected(alloc: Global, row: &Row, marked: &Marked) -> Result<String, NoMemory> {
    let output = row.output;
    let used = row.used;
    match row.ending {
        "done" => format!(in alloc; "{output}done {used}"),
        trap => format!(in alloc; "{output}{trap} {} {used}", marked.trap),
    }
}

#[test]
fn programs_are_run(rt: HostRuntime) -> Result<(), Fail> {
    let alloc = rt.alloc();
    for row in &ROWS {
        let marked = unmarked(alloc, row.source)?;
        let source = marked.source.as_str();
        let whole = report(&rt, source, row.used)?;
        let expected = expected(alloc, row, &marked)?;
        assert_eq!(rt; whole.as_deref(), Some(expected.as_str()), "{source}");
    }
    Ok(())
}

#[test]
fn one_step_less_is_spent_at_the_last_cost(rt: HostRuntime) -> Result<(), Fail> {
    let alloc = rt.alloc();
    for row in &ROWS {
        let marked = unmarked(alloc, row.source)?;
        let source = marked.source.as_str();
        let short = report(&rt, source, row.used.saturating_sub(1))?;
        let paid = row.used.saturating_sub(row.last);
        let expected = format!(in alloc; "{}spent {} {paid}", row.shorter, marked.spent)?;
        assert_eq!(rt; short.as_deref(), Some(expected.as_str()), "{source}");
    }
    Ok(())
}

#[test]
fn nothing_is_paid_for_nothing(rt: HostRuntime) -> Result<(), Fail> {
    let report = report(&rt, "fun main() { }", 0)?;
    assert_eq!(rt; report.as_deref(), Some("done 0"));
    Ok(())
}

// Calls to the greatest depth, each inside of 20 blocks.
#[test]
fn calls_nest_inside_of_blocks(rt: HostRuntime) -> Result<(), Fail> {
    let mut body = String::from_str(rt.alloc(), "f(n - 1)")?;
    for _ in 0..20 {
        body = format!(in rt.alloc(); "{{ {body} }}")?;
    }
    let source = format!(in rt.alloc();
        "fun f(n: Int) {{ if n == 0 {{ print(n) }} else {body} }} fun main() {{ f(998) f(999) }}"
    )?;
    let report = report(&rt, source.as_str(), 10_000_000)?;
    assert_eq!(rt; report.as_deref(), Some("0\nTooDeep 85 47935"));
    Ok(())
}
