// Programs over several lines, with the line and column that `hv` is to name, worked out by hand.
use crate::judging::{Judged, Phase, answer_of};
use hv_tree::{Rule, line_col};
use std::alloc::{AllocError as NoMemory, Global};
use std::test::Fail;

// `x` is filled on one side of an `if`, or on both.
const ONE_SIDE: &str = "\
fun main() {
  var x: Int
  if true { &x = 1 }
  print(x)
}
";

const BOTH_SIDES: &str = "\
fun main() {
  var x: Int
  if true { &x = 1 } else { &x = 2 }
  print(x)
}
";

// Two elements are changed, of which one has an index that isn't written as a number.
const ELEMENTS: &str = "\
fun f(a: inout Int, b: inout Int) { &a = 1 &b = 2 }
fun main() {
  var a: [Int] = [7, 8]
  var i: Int = 0
  f(&a[i], &a[1])
  print(a)
}
";

const WRITTEN_ELEMENTS: &str = "\
fun f(a: inout Int, b: inout Int) { &a = 1 &b = 2 }
fun main() {
  var a: [Int] = [7, 8]
  var i: Int = 0
  f(&a[0], &a[1])
  print(a)
}
";

// One field may be changed, and the other is read, and then both are.
const FIELDS: &str = "\
struct P { var x: Int var y: Int }
fun main() {
  var p: P = P(1, 2)
  inout r: Int = &p.x
  print(p.y)
  print(p.x)
}
";

const OTHER_FIELD: &str = "\
struct P { var x: Int var y: Int }
fun main() {
  var p: P = P(1, 2)
  inout r: Int = &p.x
  print(p.y)
}
";

// The second turn moves what the first one moved.
const MOVED_TWICE: &str = "\
fun eat(v: sink Int) { }
fun main() {
  var x: Int = 1
  var n: Int = 0
  while n < 3 {
    eat(x)
    &n = n + 1
  }
}
";

// A task is awaited on one side of an `if`, or twice.
const LEFT: &str = "\
fun one() -> Int { return 1 }
fun main() {
  task h: Int = spawn(2) one()
  if true { print(await h) }
}
";

const AWAITED_TWICE: &str = "\
fun one() -> Int { return 1 }
fun main() {
  task h: Int = spawn(2) one()
  print(await h + await h)
}
";

// A binding isn't used any more, or is in the next turn; its access stays open in either case.
const UNUSED: &str = "\
fun main() {
  var x: Int = 1
  inout r: Int = &x
  &r = 2
  print(x)
  &x = 3
  print(x)
}
";

const USED_AGAIN: &str = "\
fun main() {
  var x: Int = 1
  inout r: Int = &x
  while x < 3 { &r = 2
  print(x)
  &x = 3 }
  print(x)
}
";

// Tasks that would change a field, one field twice, or an element. A task keeps nothing open, so no access clashes.
const LENT: &str = "\
struct P { var x: Int var y: Int }
fun inc(v: inout Int) { &v = v + 1 }
fun main() {
  var p: P = P(1, 2)
  task a = spawn(10) inc(&p.x)
  task b = spawn(10) inc(&p.y)
  print(p.x)
  await b
  await a
  print(p)
}
";

const LENT_TWICE: &str = "\
struct P { var x: Int var y: Int }
fun inc(v: inout Int) { &v = v + 1 }
fun main() {
  var p: P = P(1, 2)
  task a = spawn(10) inc(&p.x)
  task b = spawn(10) inc(&p.x)
  await b
  await a
  print(p)
}
";

const LENT_ELEMENT: &str = "\
fun inc(v: inout Int) { &v = v + 1 } fun main() { var a: [Int] = [1] task h = spawn(10) inc(&a[0]) await h }";

// The rule, the line and the column.
type At = Option<(Rule, u32, u32)>;

// What the rules on initialisation, those on accesses and those on handles refuse.
const ROWS: [(&str, At, At, At); 14] = [
    (ONE_SIDE, Some((Rule::I1, 4, 9)), None, None),
    (BOTH_SIDES, None, None, None),
    (ELEMENTS, None, Some((Rule::X1, 5, 13)), None),
    (WRITTEN_ELEMENTS, None, None, None),
    (FIELDS, None, Some((Rule::X2, 6, 9)), None),
    (OTHER_FIELD, None, None, None),
    (MOVED_TWICE, Some((Rule::I1, 6, 9)), None, None),
    (LEFT, None, None, Some((Rule::S1, 5, 1))),
    (AWAITED_TWICE, None, None, Some((Rule::S2, 4, 19))),
    (UNUSED, None, Some((Rule::X2, 5, 9)), None),
    (USED_AGAIN, None, Some((Rule::X2, 4, 9)), None),
    (LENT, None, None, Some((Rule::S3, 5, 22))),
    (LENT_TWICE, None, None, Some((Rule::S3, 5, 22))),
    (LENT_ELEMENT, None, None, Some((Rule::S3, 1, 89))),
];

// What is answered, as the line and column of its place.
fn line_of(alloc: Global, phase: Phase, source: &[u8]) -> Result<Option<At>, NoMemory> {
    if source.len() > 1_048_576 {
        return Ok(None);
    }
    match answer_of(alloc, phase, source)? {
        Judged::Accepted => Ok(Some(None)),
        Judged::Unread => Ok(None),
        Judged::Refused(rule, place) => {
            let (line, column) = line_col(source, place);
            Ok(Some(Some((rule, line, column))))
        }
    }
}

#[test]
fn each_program_is_judged_by_all_three(rt: HostRuntime) -> Result<(), Fail> {
    let alloc = rt.alloc();
    for (source, by_initialisation, by_accesses, by_handles) in ROWS {
        let found = line_of(alloc, Phase::Initialisation, source.as_bytes())?;
        assert_eq!(rt; found, Some(by_initialisation), "{source}");
        let found = line_of(alloc, Phase::Accesses, source.as_bytes())?;
        assert_eq!(rt; found, Some(by_accesses), "{source}");
        let found = line_of(alloc, Phase::Handles, source.as_bytes())?;
        assert_eq!(rt; found, Some(by_handles), "{source}");
    }
    Ok(())
}
