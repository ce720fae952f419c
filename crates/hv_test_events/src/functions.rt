/// The structs and functions of the rows on accesses and on initialisation. A function's name has a letter for each
/// parameter: L `let`, I `inout`, K `sink`, S `set`; A and P an `inout` array or P, C a `sink` P, D a `let` P, V a `let` array,
/// B a `let` Bool, F a `let` function. G, H and T come first where there is a result.
pub const FUNCTIONS: &str = "\
struct P { var x: Int var y: Int } struct Q { var p: P var a: [Int] } struct F { var f: fun(inout Int) var n: Int } \
struct E { } \
fun N() { } fun L(x: Int) { } fun I(x: inout Int) { } fun K(x: sink Int) { } fun S(x: set Int) { &x = 1 } \
fun G(x: inout Int) -> Int { return x } fun H(x: Int) -> Int { return x } \
fun GI(x: inout Int, y: Int) -> Int { return y } \
fun TS(x: set Int) -> Bool { &x = 1 return true } fun TK(x: sink Int) -> Bool { return true } \
fun LL(x: Int, y: Int) { } fun LI(x: Int, y: inout Int) { } fun LK(x: Int, y: sink Int) { } \
fun LS(x: Int, y: set Int) { &y = x } fun IL(x: inout Int, y: Int) { } fun II(x: inout Int, y: inout Int) { } \
fun IK(x: inout Int, y: sink Int) { } fun IS(x: inout Int, y: set Int) { &y = x } \
fun KL(x: sink Int, y: Int) { } fun KI(x: sink Int, y: inout Int) { } fun KK(x: sink Int, y: sink Int) { } \
fun SL(x: set Int, y: Int) { &x = y } fun SI(x: set Int, y: inout Int) { &x = y } \
fun SS(x: set Int, y: set Int) { &x = 1 &y = 1 } fun SD(x: set Int, p: P) { &x = 1 } \
fun III(x: inout Int, y: inout Int, u: inout Int) { } fun IIL(x: inout Int, y: inout Int, u: Int) { } \
fun AI(a: inout [Int], x: inout Int) { } fun IA(x: inout Int, a: inout [Int]) { } fun AL(a: inout [Int], x: Int) { } \
fun LA(x: Int, a: inout [Int]) { } fun PI(p: inout P, x: inout Int) { } fun IP(x: inout Int, p: inout P) { } \
fun PL(p: inout P, x: Int) { } fun ID(x: inout Int, p: P) { } fun DI(p: P, x: inout Int) { } fun C(p: sink P) { } \
fun IB(x: inout Int, b: Bool) { } fun IF(x: inout Int, f: fun() -> Int) { } fun IV(x: inout Int, a: [Int]) { } ";
