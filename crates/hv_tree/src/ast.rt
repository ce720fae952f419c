// The parts of a program, as plain data.

use crate::{Conv, Name, Place, Ty};
use hv_items::{Boxed, Items};

/// `(struct | function)*`, in the order of the source; a program may declare nothing.
/// A program.
#[derive(Drop)]
pub struct Tree {
    pub decls: Items<Decl>,
}

/// What stands at the outermost level of a source.
#[derive(Drop)]
pub enum Decl {
    /// `struct P { var x: T }`.
    Struct(StructDecl),
    /// `fun f(x: T, y: inout T) -> T { .. }`.
    Fun(FunDecl),
}

/// `struct P { var x: T var y: T }`, where `;` may stand behind each field; without fields `struct P { }`.
#[derive(Drop)]
pub struct StructDecl {
    pub name: Name,
    pub fields: Items<Field>,
}

/// `var x: T` in a struct. A field's number is its index among the fields, from 0.
#[derive(Drop)]
pub struct Field {
    pub name: Name,
    pub ty: Ty,
}

/// `fun f(x: T, y: inout T) -> T { .. }`; without a result `fun f() { .. }`.
#[derive(Drop)]
pub struct FunDecl {
    pub name: Name,
    pub params: Items<Param>,
    pub result: Option<Ty>,
    pub body: Block,
}

/// `x: T`, `x: let T`, `x: inout T`, `x: sink T` or `x: set T`, of a function or a lambda.
#[derive(Drop)]
pub struct Param {
    pub name: Name,
    pub conv: Conv,
    pub ty: Ty,
}

/// `{ .. }`, where `;` may stand behind each statement.
/// Statements, and the place of the `}`.
#[cycle(ast)]
#[derive(Drop)]
pub struct Block {
    pub stmts: Items<Stmt>,
    pub end: Place,
}

/// A `;` behind it is kept nowhere.
/// A statement, and the place of its first token.
#[cycle(ast)]
#[derive(Drop)]
pub struct Stmt {
    pub place: Place,
    pub kind: StmtKind,
}

/// What a statement is. The forms are this project's own, but for the `&` at a change, which is Hylo's.
#[cycle(ast)]
#[derive(Drop)]
pub enum StmtKind {
    /// `var x: T` or `var x: T = e`.
    Var(Name, Ty, Option<Expr>),
    /// `let x: T = e`.
    Let(Name, Ty, Expr),
    /// `inout x: T = &p`.
    Inout(Name, Ty, PlaceExpr),
    /// `&x = e`, `&x.f = e`, `&x[i] = e`.
    Assign(PlaceExpr, Expr),
    /// `if c { .. }`, `if c { .. } else if d { .. } else { .. }`.
    /// The tests with their blocks in order, and the last `else`.
    If(Items<Branch>, Option<Block>),
    /// `while c { .. }`.
    While(Expr, Block),
    /// `return e` or `return`.
    Return(Option<Expr>),
    /// `print(e)`.
    Print(Expr),
    /// `task h: T = spawn(e) f(x)` or `task h = spawn(e) f(x)` (spawn and await after Teodorescu).
    /// The handle, its type, the place of the word `spawn`, the budget and the call.
    Task(Name, Option<Ty>, Place, Expr, Call),
    /// `await h` as a statement of its own.
    Await(Name),
    /// `f(x, &y)` as a statement of its own.
    Call(Call),
    /// `{ .. }` as a statement of its own.
    Block(Block),
}

/// `if c { .. }`, alone or behind an `else`.
/// A test of an `if` with its block.
#[cycle(ast)]
#[derive(Drop)]
pub struct Branch {
    pub test: Expr,
    pub body: Block,
}

/// `x`, `x.f`, `x[i]`, `x[i].f`.
/// A local or a top-level name, and the steps into it.
#[cycle(ast)]
#[derive(Drop)]
pub struct PlaceExpr {
    pub root: Name,
    pub steps: Items<Step>,
}

/// A step from a place to a part of it.
#[cycle(ast)]
#[derive(Drop)]
pub enum Step {
    /// `.f`.
    Field(Name),
    /// `[i]`.
    /// The place of the `[`, and the index.
    Index(Place, Expr),
}

/// `f(x, &y)`, `p.g(x)`; the name of a struct is called to make one, as `P(1, 2)`.
/// A call; `paren` is the place of its `(`.
#[cycle(ast)]
#[derive(Drop)]
pub struct Call {
    pub callee: PlaceExpr,
    pub paren: Place,
    pub args: Items<Arg>,
}

/// What stands between the commas of a call.
#[cycle(ast)]
#[derive(Drop)]
pub enum Arg {
    /// `e`.
    Value(Expr),
    /// `&p`.
    /// The place of the `&`, and what it lends.
    Ref(Place, PlaceExpr),
}

/// `1 + 2`, `f(x)`, `(e)`: what gives a value where it stands.
/// An expression, and the place of its first token, brackets that only group aside.
#[cycle(ast)]
#[derive(Drop)]
pub struct Expr {
    pub place: Place,
    pub kind: ExprKind,
}

/// What an expression is. `(e)` has no kind of its own and is `e`.
#[cycle(ast)]
#[derive(Drop)]
pub enum ExprKind {
    /// `7`. The source has no number below 0; `-7` is a `Prefix`.
    Int(i64),
    /// `true` or `false`.
    Bool(bool),
    /// `x`, `x.f`, `x[i]` in value position.
    Path(PlaceExpr),
    /// `f(x, &y)` for its result.
    Call(Call),
    /// `await h` for the result of the task.
    Await(Name),
    /// `[a, b]`, of at least one element.
    ArrayLit(Items<Expr>),
    /// `filled(n, e)`: the length and the value.
    Filled(Boxed<Expr>, Boxed<Expr>),
    /// `count(p)`.
    Count(PlaceExpr),
    /// `fun [a, b] (x: T) -> T { .. }`.
    /// The captures, the parameters, the result and the body.
    Lambda(Items<Name>, Items<Param>, Option<Ty>, Block),
    /// `-a` or `!a`.
    Prefix(Operator, Boxed<Expr>),
    /// `a + b - c`, `a && b`, `a < b`.
    /// The first operand, and the operators of one level with their places and right operands.
    Chain(Boxed<Expr>, Items<(Operator, Place, Expr)>),
}

/// A binary operator or a prefix; `Sub` and `Neg` are both written `-`.
#[derive(Clone, Copy, Debug, PartialEq, Eq)]
pub enum Operator {
    /// `a + b`.
    Add,
    /// `a - b`.
    Sub,
    /// `a * b`.
    Mul,
    /// `a / b`, rounded towards zero.
    Div,
    /// `a % b`, with the sign of `a`.
    Rem,
    /// `a == b`.
    Eq,
    /// `a != b`.
    Ne,
    /// `a < b`.
    Lt,
    /// `a <= b`.
    Le,
    /// `a > b`.
    Gt,
    /// `a >= b`.
    Ge,
    /// `a && b`.
    And,
    /// `a || b`.
    Or,
    /// `-a`.
    Neg,
    /// `!a`.
    Not,
}
