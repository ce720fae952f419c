// Changes of what an open access overlaps, refused by X1 at the mark `^`, and the nearest programs that are accepted.

pub const REFUSED: &str = "
# Two places in one call.
II(&x, &^x) }
LI(x, &^x) }
LK(x, ^x) }
LS(x, &^x) }
IK(&x, ^x) }
IS(&x, &^x) }
SS(&x, &^x) }
SI(&a[0], &^a[0]) }
SS(&a[0], &^a[0]) }
III(&x, &y, &^x) }
III(&x, &y, &^y) }
III(&x, &^x, &x) }
var g: fun(inout Int, inout Int) = II g(&x, &^x) }
# Indices, of which two differ only where both are written numbers that differ.
II(&a[i], &^a[1]) }
II(&a[0], &^a[i]) }
II(&a[i], &^a[i]) }
II(&a[i], &^a[x]) }
II(&a[1], &^a[1]) }
II(&a[1], &^a[01]) }
II(&a[1], &^a[(1)]) }
II(&a[0], &^a[0 + 1]) }
II(&a[0], &^a[-1]) }
II(&a[0], &^a[H(1)]) }
LI(a[i], &^a[1]) }
LS(a[i], &^a[1]) }
SI(&a[i], &^a[1]) }
II(&m[0][0], &^m[0][0]) }
II(&m[0][i], &^m[i][0]) }
II(&m[0][i], &^m[0][1]) }
# Fields.
II(&p.x, &^p.x) }
LI(p.x, &^p.x) }
II(&ps[i].x, &^ps[0].x) }
II(&q.a[0], &^q.a[i]) }
# A part and the whole.
PI(&p, &^p.x) }
IP(&p.x, &^p) }
DI(p, &^p.x) }
PI(&q.p, &^q.p.x) }
IP(&q.p.x, &^q.p) }
AI(&a, &^a[0]) }
IA(&a[0], &^a) }
IA(&m[0][1], &^m[0]) }
IA(&m[0][1], &^m[i]) }
AI(&q.a, &^q.a[i]) }
LA(a[i], &^a) }
# The arguments of a call within an argument.
IL(&x, G(&^x)) }
LL(x, G(&^x)) }
LL(a[i], G(&^a[1])) }
IL(&x, H(G(&^x))) }
IL(&x, GI(&y, G(&^x))) }
IL(&x, GI(&y, G(&^y))) }
IL(&x, 1 + G(&^x)) }
IL(&x, -G(&^x)) }
IV(&x, [1, G(&^x)]) }
IV(&x, filled(G(&^x), 0)) }
IV(&x, filled(1, G(&^x))) }
ID(&x, P(1, G(&^x))) }
II(&x, &a[G(&^x)]) }
IB(&x, b && G(&^x) == 1) }
IB(&x, b || G(&^x) == 1) }
# A binding keeps its access until its block ends, whatever the binding is used for.
inout r: Int = &x &^x = 2 }
inout r: Int = &x &r = 2 &^x = 2 }
inout r: Int = &x print(r) &^x = 2 }
let r: Int = x &^x = 2 }
let r: Int = x print(r) &^x = 2 }
let r: P = p &^p.y = 1 }
let r: Int = a[0] &^a = [1] }
let r: Int = a[0] &^a[i] = 1 }
let r: Int = a[i] &^a[0] = 1 }
inout r: Int = &p.x &^p = P(1, 2) }
inout r: P = &p &^p.x = 1 }
inout r: Int = &a[0] &^a[i] = 1 }
inout r: Int = &x I(&^x) }
let r: Int = x I(&^x) }
let r: Int = x S(&^x) }
let r: Int = x K(^x) }
inout r: Int = &x K(^x) }
inout r: Int = &x S(&^x) }
let r: Int = x inout s: Int = &^x }
inout r: Int = &x inout s: Int = &^x }
inout r: P = &p inout s: Int = &^p.x }
inout r: Int = &p.x inout s: P = &^p }
inout r: Int = &x inout s: Int = &r &^r = 2 }
inout r: Int = &x inout s: Int = &r &^x = 2 }
inout r: Int = &x inout s: Int = &y &^x = 2 }
inout r: Int = &x inout s: Int = &y &^y = 2 }
# Blocks, sides, turns, calls and a return before that don't end it.
{ inout r: Int = &x &^x = 2 } }
inout r: Int = &x { &^x = 2 } }
inout r: Int = &x { inout s: Int = &y } &^x = 2 }
inout r: Int = &x if b { &^x = 2 } }
inout r: Int = &x if b { } else { &^x = 2 } }
inout r: Int = &x if b { } else if b { &^x = 2 } }
if b { let r: Int = x &^x = 2 } }
if b { } else { let r: Int = x &^x = 2 } }
inout r: Int = &x while b { &^x = 2 } }
while b { let r: Int = x &^x = 2 } }
let r: Int = x while G(&^x) == 1 { } }
inout r: Int = &x if b { return; } &^x = 2 }
inout r: Int = &x I(&y) &^x = 2 }
let r: Int = x L(x) &^x = 2 }
let r: Int = x print(G(&^x)) }
let r: Int = x &p = P(1, G(&^x)) }
# What some run reaches counts, whatever the tests give.
if false { II(&x, &^x) } }
while true { } II(&x, &^x) }
if b { return; } II(&x, &^x) }
# A task takes its arguments as it is spawned.
let r: Int = x task t = spawn(9) K(^x) await t }
let r: Int = x task t = spawn(G(&^x)) N() await t }
inout r: Int = &x task t = spawn(9) I(&^x) await t }
inout r: Int = &x task t = spawn(9) N() await t &^x = 2 }
# The first by its place is answered: the right side is read before, and stands behind.
inout r: Int = &x &^x = x }
inout r: Int = &x &^x = G(&x) }
II(&x, &^x) II(&y, &y) }
II(&x, &^x) LL(y, G(&y)) IL(&y, y) }
II(&x, &^x) } fun z(v: inout Int) { II(&v, &v) }
# An event that violates a rule has its effect: the access of G within it is the one that is closed.
AI(&a, &^a[GI(&y, G(&y))]) }
# In other bodies.
} fun z(v: inout P) { inout r: Int = &v.x &^v = P(1, 2) }
} fun z(v: sink Int) { let r: Int = v &^v = 2 }
} fun z(v: set Int) { &v = 1 inout r: Int = &v &^v = 2 }
} fun z(v: inout Int) -> Int { let r: Int = v return G(&^v) }
var l: fun() = fun [] () { var z: Int = 1 II(&z, &^z) } }
var l: fun() = fun [] () { var z: Int = 1 II(&z, &^z) } II(&x, &x) }
II(&x, &^x) var l: fun() = fun [] () { var z: Int = 1 II(&z, &z) } }
var l: fun(inout P) = fun [] (v: inout P) { PI(&v, &^v.x) } }
";

pub const ACCEPTED: &str = "
}
# Two places in one call.
II(&x, &y) }
III(&x, &y, &i) }
LI(y, &x) }
LK(y, x) }
LS(y, &x) }
IK(&x, y) }
IS(&x, &y) }
SS(&x, &y) }
SI(&a[0], &a[1]) }
II(&a[0], &a[1]) }
II(&a[00], &a[01]) }
II(&a[0], &a[(1)]) }
II(&m[0][i], &m[1][i]) }
II(&m[i][0], &m[i][1]) }
II(&p.x, &p.y) }
II(&q.p.x, &q.p.y) }
II(&ps[i].x, &ps[i].y) }
AI(&q.a, &q.p.x) }
PI(&p, &q.p.x) }
PI(&ps[0], &ps[1].x) }
IA(&m[0][1], &m[1]) }
# What isn't a place, an index and a callee is copied, and isn't kept open.
LI(1, &x) }
LI(x + 0, &x) }
LK(x + 0, x) }
LI(count(a), &a[0]) }
LI(a[i], &i) }
II(&a[i], &i) }
c.f(&c.n) }
var fs: [fun(inout Int)] = [I] fs[i](&i) }
&p = P(x, G(&x)) }
print([x, G(&x)]) }
print(x + G(&x)) }
# A call's accesses end with it, also those of a call within an argument.
I(&x) I(&x) }
LI(H(x), &x) }
LI(G(&x), &x) }
LL(G(&x), G(&x)) }
IL(&x, G(&y)) }
I(&a[G(&a[0])]) }
&x = G(&x) }
&a[G(&a[0])] = G(&a[1]) }
IB(&x, b && G(&y) == 1) }
# A binding's end with its block.
{ inout r: Int = &x } &x = 2 }
if b { let r: Int = x } &x = 2 }
if b { inout r: Int = &x } else { &x = 2 } }
while b { &x = 2 inout r: Int = &x } &x = 2 }
while b { var z: Int = 1 inout r: Int = &z &r = 2 } }
# What is bound is used, or another part is.
inout r: Int = &x &r = 2 }
inout r: Int = &x I(&r) }
inout r: Int = &x inout s: Int = &r &s = 2 }
inout r: Int = &p.x &p.y = 2 }
inout r: Int = &a[0] &a[1] = 2 }
let r: Int = a[0] &a[1] = 2 }
# A value is bound, not a place.
let r: Int = x + 0 &x = 2 }
let r: Int = H(x) &x = 2 }
var r: Int = x &x = 2 }
var l: fun() -> Int = fun [x] () -> Int { return x } &x = 2 print(l()) }
# No run comes behind a return.
return; II(&x, &x) }
if b { return; } else { return; } II(&x, &x) }
while b { return; II(&x, &x) } }
# A task keeps nothing open.
task t = spawn(9) L(x) &x = 2 await t }
task t = spawn(9) LK(x, x) await t }
task t = spawn(9) II(&x, &x) await t }
# Another body's local of the same name.
inout r: Int = &x } fun z(x: inout Int) { &x = 2 }
inout r: Int = &x var l: fun(inout Int) = fun [] (x: inout Int) { &x = 2 } }
";
