// Reads of what an access for a change overlaps, refused by X2 at the mark `^`, and the nearest programs that are accepted.

pub const REFUSED: &str = "
# Two places in one call.
IL(&x, ^x) }
IIL(&x, &y, ^x) }
IIL(&x, &y, ^y) }
SL(&a[0], ^a[0]) }
SL(&a[0], ^a[i]) }
var g: fun(inout Int, Int) = IL g(&x, ^x) }
IL(&a[i], ^a[1]) }
IL(&a[0], ^a[i]) }
IL(&a[1], ^a[01]) }
IL(&a[0], ^a[1 - 1]) }
IL(&m[i][0], ^m[0][i]) }
IL(&p.x, ^p.x) }
IL(&ps[i].x, ^ps[0].x) }
# A part and the whole.
PL(&p, ^p.x) }
ID(&p.x, ^p) }
PL(&q.p, ^q.p.y) }
ID(&q.p.x, ^q.p) }
AL(&a, ^a[0]) }
IV(&a[0], ^a) }
# A value that is used in an argument.
IL(&x, ^x + 0) }
IL(&x, 1 - ^x) }
IL(&x, -^x) }
IL(&x, H(^x)) }
IL(&x, H(1 + ^x)) }
AL(&a, count(^a)) }
SL(&a[0], count(^a)) }
IL(&a[0], count(^a)) }
IL(&x, a[^x]) }
II(&x, &a[^x]) }
IL(&x, G(&a[^x])) }
IV(&x, [1, ^x]) }
IV(&x, filled(^x, 0)) }
IV(&x, filled(1, ^x)) }
ID(&x, P(1, ^x)) }
IB(&x, ^x == 1) }
IB(&x, b && ^x == 1) }
IB(&x, b || ^x == 1) }
IF(&x, fun [^x] () -> Int { return x }) }
IF(&x, fun [y, ^x] () -> Int { return x }) }
# Each position in which a value is used, while a binding may change it.
inout r: Int = &x print(^x) }
inout r: Int = &x print(r + ^x) }
inout r: Int = &x print(^x == 1) }
inout r: Int = &x print(-^x) }
inout r: Bool = &b print(!^b) }
inout r: Bool = &b print(true && ^b) }
inout r: Bool = &b print(false || ^b) }
inout r: Bool = &b if ^b { } }
inout r: Bool = &b if true { } else if ^b { } }
inout r: Bool = &b while ^b { } }
inout r: Int = &i print(a[^i]) }
inout r: Int = &i &a[^i] = 1 }
inout r: Int = &i inout s: Int = &a[^i] }
inout r: Int = &i let s: Int = a[^i] }
inout r: Int = &i print(count(m[^i])) }
inout r: Int = &x &y = ^x }
inout r: Int = &x var z: Int = ^x }
inout r: Int = &x let z: Int = ^x }
inout r: Int = &x let z: Int = ^x + 1 }
inout r: Int = &x print([1, ^x]) }
inout r: Int = &x &p = P(1, ^x) }
inout r: Int = &x print(filled(^x, 0)) }
inout r: Int = &x print(filled(1, ^x)) }
inout r: Int = &a[0] print(count(^a)) }
inout r: Int = &x L(^x) }
inout r: Int = &x K(^x + 0) }
inout r: Int = &x var l: fun() -> Int = fun [^x] () -> Int { return x } }
var l: fun() = N inout r: fun() = &l ^l() }
inout r: fun(inout Int) = &c.f ^c.f(&x) }
inout r: F = &c ^c.f(&x) }
var fs: [fun(inout Int)] = [I] inout r: fun(inout Int) = &fs[0] ^fs[i](&x) }
var fs: [fun(inout Int)] = [I] inout r: Int = &i fs[^i](&x) }
inout r: Int = &x task t = spawn(^x) N() await t }
inout r: Int = &x task t = spawn(9) L(^x) await t }
inout r: Int = &x task t = spawn(9) K(^x + 0) await t }
var l: fun() = N inout r: fun() = &l task t = spawn(9) ^l() await t }
# A part and the whole.
inout r: Int = &p.x print(^p.x) }
inout r: Int = &p.x print(^p) }
inout r: P = &p print(^p.x) }
inout r: Int = &q.p.x print(^q.p) }
inout r: Int = &a[i] print(^a[0]) }
inout r: Int = &a[0] print(^a[i]) }
inout r: Int = &a[0] print(^a) }
inout r: [Int] = &m[0] print(^m[0][i]) }
inout r: Int = &p.x print(p.y) print(^p.x) }
# A binding keeps its access until its block ends.
inout r: Int = &x print(r) print(^x) }
inout r: Int = &x { print(^x) } }
{ inout r: Int = &x print(^x) } }
inout r: Int = &x { inout s: Int = &y } print(^x) }
inout r: Int = &x if b { print(^x) } }
inout r: Int = &x if b { } else { print(^x) } }
if b { inout r: Int = &x print(^x) } }
inout r: Int = &x while b { print(^x) } }
while b { inout r: Int = &x print(^x) } }
inout r: Int = &x if b { return; } print(^x) }
inout r: Int = &x I(&y) print(^x) }
inout r: Int = &x inout s: Int = &r print(^r) }
inout r: Int = &x inout s: Int = &r print(^x) }
inout r: Int = &x let s: Int = r print(^x) }
# What some run reaches counts, whatever the tests give.
if false { IL(&x, ^x) } }
while true { } IL(&x, ^x) }
if b { return; } IL(&x, ^x) }
# The first by its place is answered.
inout r: Int = &x print(^x) &x = 2 }
inout r: Int = &x &a[^x] = x }
AL(&a, ^a[a[0]]) }
IL(&x, ^x) II(&y, &y) }
# An event that violates a rule has its effect: the access of G within it is the one that is closed.
AL(&a, ^a[GI(&y, G(&y))]) }
# In other bodies.
} fun z(v: inout P) { inout r: Int = &v.x print(^v) }
} fun z(v: sink Int) { inout r: Int = &v print(^v) }
} fun z(v: inout Int) -> Int { inout r: Int = &v return ^v }
var l: fun() = fun [] () { var z: Int = 1 inout r: Int = &z print(^z) } }
var l: fun() = fun [] () { var z: Int = 1 IL(&z, ^z) } IL(&x, x) }
";

pub const ACCEPTED: &str = "
# Reads beside reads.
LL(x, x) }
LL(a[i], a[1]) }
LL(p.x, p.x) }
let r: Int = x print(x) L(x) }
let r: Int = x let s: Int = x }
let r: P = p let s: Int = p.x print(p) }
let r: Int = x task t = spawn(9) L(x) await t }
let r: Int = x var l: fun() -> Int = fun [x] () -> Int { return x } }
let r: [Int] = a print(count(a)) }
# Other places.
IL(&x, y) }
IL(&x, 1) }
IL(&a[0], a[1]) }
IL(&p.x, p.y) }
IL(&ps[i].x, ps[i].y) }
IL(&m[0][i], m[1][i]) }
SL(&x, y) }
SL(&a[0], a[1]) }
IL(&x, H(y)) }
IB(&x, b && y == 1) }
IF(&x, fun [y] () -> Int { return y }) }
IF(&x, fun [] () -> Int { var x: Int = 1 return x }) }
ID(&q.a[0], q.p) }
c.f(&c.n) }
var l: fun(inout Int) = I inout r: Int = &x l(&y) }
# What a call was given is free behind it.
I(&x) print(x) }
print(G(&x) + x) }
print(x + G(&x)) }
IL(&y, G(&x)) print(x) }
LL(G(&x), x) }
&x = x }
&a[a[0]] = a[1] }
I(&a[a[0]]) }
# A binding's access ends with its block, and only what it overlaps is open.
inout r: Int = &x print(r) }
inout r: Int = &x inout s: Int = &r print(s) }
{ inout r: Int = &x } print(x) }
if b { inout r: Int = &x } else { print(x) } }
while b { print(x) inout r: Int = &x } print(x) }
inout r: Int = &p.x print(p.y) }
inout r: Int = &a[0] print(a[1]) }
inout r: Int = &q.p.x print(q.a) }
# No run comes behind a return.
return; IL(&x, x) }
inout r: Int = &x return; print(x) }
# A copy was made before.
var l: fun() -> Int = fun [x] () -> Int { return x } inout r: Int = &x print(l()) }
var z: Int = x inout r: Int = &x print(z) }
task t = spawn(9) L(x) inout r: Int = &x await t }
";
