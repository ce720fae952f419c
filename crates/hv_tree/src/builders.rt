//! A builder for each part of a tree that has fields. It takes a part's fields in their written
//! order, and takes memory for a field that stands behind a box.

ghost use Rattle.std.specs.Prelude.{◌≡◌, IfOk, string_bytes};
ghost use Rattle.hv_tree.specs.declared.ast.Block.{roll-Block};
ghost use Rattle.hv_tree.specs.declared.ast.Branch.{roll-Branch};
ghost use Rattle.hv_tree.specs.declared.ast.Call.{roll-Call};
ghost use Rattle.hv_tree.specs.declared.ast.Expr.{roll-Expr};
ghost use Rattle.hv_tree.specs.declared.ast.PlaceExpr.{roll-PlaceExpr};
ghost use Rattle.hv_tree.specs.declared.ast.Stmt.{roll-Stmt};

use crate::{
    Arg, Block, Branch, Call, Conv, Decl, Expr, ExprKind, Field, FunDecl, Name, Operator, Param,
    Place, PlaceExpr, Step, Stmt, StmtKind, StructDecl, Text, Tree, Ty,
};
use hv_items::{Boxed, Items};
use std::alloc::{AllocError as NoMemory, Global};

/// `decls` in the order of the source.
pub fn tree(_alloc: Global, decls: Vec<Decl>) -> Result<Tree, NoMemory>
    ensures { IfOk result (λ part. part ≡ record { decls = decls.items }) }
{
    Ok(Tree {
        decls: Items::from_vec(decls),
    })
}

/// `struct P { .. }` among the declarations.
pub fn decl_struct(_alloc: Global, declared: StructDecl) -> Result<Decl, NoMemory>
    ensures { IfOk result (λ part. part ≡ Decl.Struct declared) }
{
    Ok(Decl::Struct(declared))
}

/// `fun f(..) { .. }` among the declarations.
pub fn decl_fun(_alloc: Global, declared: FunDecl) -> Result<Decl, NoMemory>
    ensures { IfOk result (λ part. part ≡ Decl.Fun declared) }
{
    Ok(Decl::Fun(declared))
}

/// `text` isn't tested to be a word; `place` is its first byte.
pub fn name(_alloc: Global, text: String, place: Place) -> Result<Name, NoMemory>
    ensures { IfOk result (λ part. part ≡ record { text = string_bytes text; place = place }) }
{
    Ok(Name {
        text: Text::from_string(text),
        place,
    })
}

/// `struct name { fields }`.
pub fn struct_decl(_alloc: Global, name: Name, fields: Vec<Field>) -> Result<StructDecl, NoMemory>
    ensures { IfOk result (λ part. part ≡ record { name = name; fields = fields.items }) }
{
    Ok(StructDecl {
        name,
        fields: Items::from_vec(fields),
    })
}

/// `var name: ty` in a struct.
pub fn field(_alloc: Global, name: Name, ty: Ty) -> Result<Field, NoMemory>
    ensures { IfOk result (λ part. part ≡ record { name = name; ty = ty }) }
{
    Ok(Field { name, ty })
}

/// `name: conv ty`; `name: ty` has the convention `Let`.
pub fn param(_alloc: Global, name: Name, conv: Conv, ty: Ty) -> Result<Param, NoMemory>
    ensures { IfOk result (λ part. part ≡ record { name = name; conv = conv; ty = ty }) }
{
    Ok(Param { name, conv, ty })
}

/// `fun name(params) -> returned body`; `None` where no `->` stands.
pub fn fun_decl(
    _alloc: Global,
    name: Name,
    params: Vec<Param>,
    returned: Option<Ty>,
    body: Block,
) -> Result<FunDecl, NoMemory>
    ensures { IfOk result (λ part. part ≡ record { name = name; params = params.items; result = returned; body = body }) }
{
    Ok(FunDecl {
        name,
        params: Items::from_vec(params),
        result: returned,
        body,
    })
}

/// `Int`, whose `I` is at the place.
pub fn ty_int(_alloc: Global, place: Place) -> Result<Ty, NoMemory>
    ensures { IfOk result (λ part. part ≡ Ty.Int place) }
{
    Ok(Ty::Int(place))
}

/// `Bool`, whose `B` is at the place.
pub fn ty_bool(_alloc: Global, place: Place) -> Result<Ty, NoMemory>
    ensures { IfOk result (λ part. part ≡ Ty.Bool place) }
{
    Ok(Ty::Bool(place))
}

/// `P`; whether there is such a struct isn't asked.
pub fn ty_named(_alloc: Global, name: Name) -> Result<Ty, NoMemory>
    ensures { IfOk result (λ part. part ≡ Ty.Named name) }
{
    Ok(Ty::Named(name))
}

/// `[element]`, whose `[` is at the place. Takes memory for the element.
pub fn ty_array(alloc: Global, place: Place, element: Ty) -> Result<Ty, NoMemory>
    ensures { IfOk result (λ part. part ≡ Ty.Array place element) }
{
    let element = Boxed::new(alloc, element)?;
    Ok(Ty::Array(place, element))
}

/// `fun(params) -> returned`, whose word `fun` is at the place. Takes memory for a result.
pub fn ty_fun(
    alloc: Global,
    place: Place,
    params: Vec<(Conv, Ty)>,
    returned: Option<Ty>,
) -> Result<Ty, NoMemory>
    ensures { IfOk result (λ part. part ≡ Ty.Fun place params.items returned) }
{
    let returned = match returned {
        Some(returned) => Some(Boxed::new(alloc, returned)?),
        None => None,
    };
    Ok(Ty::Fun(place, Items::from_vec(params), returned))
}

/// `{ stmts }`, whose `}` is at `end`.
pub fn block(_alloc: Global, stmts: Vec<Stmt>, end: Place) -> Result<Block, NoMemory>
    ensures { IfOk result (λ part. part ≡ roll-Block (record { stmts = stmts.items; end = end })) }
{
    Ok(Block {
        stmts: Items::from_vec(stmts),
        end,
    })
}

/// `place` is that of the first token: of an assignment it is the `&`.
pub fn stmt(_alloc: Global, place: Place, kind: StmtKind) -> Result<Stmt, NoMemory>
    ensures { IfOk result (λ part. part ≡ roll-Stmt (record { place = place; kind = kind })) }
{
    Ok(Stmt { place, kind })
}

/// `var name: ty = value`; `None` for `var name: ty`.
pub fn stmt_kind_var(
    _alloc: Global,
    name: Name,
    ty: Ty,
    value: Option<Expr>,
) -> Result<StmtKind, NoMemory>
    ensures { IfOk result (λ part. part ≡ StmtKind.Var name ty value) }
{
    Ok(StmtKind::Var(name, ty, value))
}

/// `let name: ty = value`.
pub fn stmt_kind_let(_alloc: Global, name: Name, ty: Ty, value: Expr) -> Result<StmtKind, NoMemory>
    ensures { IfOk result (λ part. part ≡ StmtKind.Let name ty value) }
{
    Ok(StmtKind::Let(name, ty, value))
}

/// `inout name: ty = &place`.
pub fn stmt_kind_inout(
    _alloc: Global,
    name: Name,
    ty: Ty,
    place: PlaceExpr,
) -> Result<StmtKind, NoMemory>
    ensures { IfOk result (λ part. part ≡ StmtKind.Inout name ty place) }
{
    Ok(StmtKind::Inout(name, ty, place))
}

/// `&place = value`.
pub fn stmt_kind_assign(_alloc: Global, place: PlaceExpr, value: Expr) -> Result<StmtKind, NoMemory>
    ensures { IfOk result (λ part. part ≡ StmtKind.Assign place value) }
{
    Ok(StmtKind::Assign(place, value))
}

/// `if`, each `else if` and the last `else`; the source has at least one branch.
pub fn stmt_kind_if(
    _alloc: Global,
    branches: Vec<Branch>,
    otherwise: Option<Block>,
) -> Result<StmtKind, NoMemory>
    ensures { IfOk result (λ part. part ≡ StmtKind.If branches.items otherwise) }
{
    Ok(StmtKind::If(Items::from_vec(branches), otherwise))
}

/// `if test body`, also behind an `else`.
pub fn branch(_alloc: Global, test: Expr, body: Block) -> Result<Branch, NoMemory>
    ensures { IfOk result (λ part. part ≡ roll-Branch (record { test = test; body = body })) }
{
    Ok(Branch { test, body })
}

/// `while test body`.
pub fn stmt_kind_while(_alloc: Global, test: Expr, body: Block) -> Result<StmtKind, NoMemory>
    ensures { IfOk result (λ part. part ≡ StmtKind.While test body) }
{
    Ok(StmtKind::While(test, body))
}

/// `return value`; `None` for `return`.
pub fn stmt_kind_return(_alloc: Global, value: Option<Expr>) -> Result<StmtKind, NoMemory>
    ensures { IfOk result (λ part. part ≡ StmtKind.Return value) }
{
    Ok(StmtKind::Return(value))
}

/// `print(value)`.
pub fn stmt_kind_print(_alloc: Global, value: Expr) -> Result<StmtKind, NoMemory>
    ensures { IfOk result (λ part. part ≡ StmtKind.Print value) }
{
    Ok(StmtKind::Print(value))
}

/// `task handle: ty = spawn(budget) call`; `spawn` is the place of that word.
pub fn stmt_kind_task(
    _alloc: Global,
    handle: Name,
    ty: Option<Ty>,
    spawn: Place,
    budget: Expr,
    call: Call,
) -> Result<StmtKind, NoMemory>
    ensures { IfOk result (λ part. part ≡ StmtKind.Task handle ty spawn budget call) }
{
    Ok(StmtKind::Task(handle, ty, spawn, budget, call))
}

/// `await handle` as a statement of its own.
pub fn stmt_kind_await(_alloc: Global, handle: Name) -> Result<StmtKind, NoMemory>
    ensures { IfOk result (λ part. part ≡ StmtKind.Await handle) }
{
    Ok(StmtKind::Await(handle))
}

/// `f(x)` as a statement of its own.
pub fn stmt_kind_call(_alloc: Global, call: Call) -> Result<StmtKind, NoMemory>
    ensures { IfOk result (λ part. part ≡ StmtKind.Call call) }
{
    Ok(StmtKind::Call(call))
}

/// `{ .. }` among statements.
pub fn stmt_kind_block(_alloc: Global, block: Block) -> Result<StmtKind, NoMemory>
    ensures { IfOk result (λ part. part ≡ StmtKind.Block block) }
{
    Ok(StmtKind::Block(block))
}

/// `root` and then `steps`, as `x[i].f`; without steps the name alone.
pub fn place_expr(_alloc: Global, root: Name, steps: Vec<Step>) -> Result<PlaceExpr, NoMemory>
    ensures { IfOk result (λ part. part ≡ roll-PlaceExpr (record { root = root; steps = steps.items })) }
{
    Ok(PlaceExpr {
        root,
        steps: Items::from_vec(steps),
    })
}

/// `.name`.
pub fn step_field(_alloc: Global, name: Name) -> Result<Step, NoMemory>
    ensures { IfOk result (λ part. part ≡ Step.Field name) }
{
    Ok(Step::Field(name))
}

/// `[index]`, whose `[` is at `bracket`.
pub fn step_index(_alloc: Global, bracket: Place, index: Expr) -> Result<Step, NoMemory>
    ensures { IfOk result (λ part. part ≡ Step.Index bracket index) }
{
    Ok(Step::Index(bracket, index))
}

/// `callee(args)`, whose `(` is at `paren`.
pub fn call(
    _alloc: Global,
    callee: PlaceExpr,
    paren: Place,
    args: Vec<Arg>,
) -> Result<Call, NoMemory>
    ensures { IfOk result (λ part. part ≡ roll-Call (record { callee = callee; paren = paren; args = args.items })) }
{
    Ok(Call {
        callee,
        paren,
        args: Items::from_vec(args),
    })
}

/// `value`, without a `&`.
pub fn arg_value(_alloc: Global, value: Expr) -> Result<Arg, NoMemory>
    ensures { IfOk result (λ part. part ≡ Arg.Value value) }
{
    Ok(Arg::Value(value))
}

/// `&place`, whose `&` is at `ampersand`.
pub fn arg_ref(_alloc: Global, ampersand: Place, place: PlaceExpr) -> Result<Arg, NoMemory>
    ensures { IfOk result (λ part. part ≡ Arg.Ref ampersand place) }
{
    Ok(Arg::Ref(ampersand, place))
}

/// `place` is that of the first token, brackets that only group aside.
pub fn expr(_alloc: Global, place: Place, kind: ExprKind) -> Result<Expr, NoMemory>
    ensures { IfOk result (λ part. part ≡ roll-Expr (record { place = place; kind = kind })) }
{
    Ok(Expr { place, kind })
}

/// `value` in decimal; the source has none below 0.
pub fn expr_kind_int(_alloc: Global, value: i64) -> Result<ExprKind, NoMemory>
    ensures { IfOk result (λ part. part ≡ ExprKind.Int value) }
{
    Ok(ExprKind::Int(value))
}

/// `true` or `false`.
pub fn expr_kind_bool(_alloc: Global, value: bool) -> Result<ExprKind, NoMemory>
    ensures { IfOk result (λ part. part ≡ ExprKind.Bool value) }
{
    Ok(ExprKind::Bool(value))
}

/// `x`, `x.f`, `x[i]` in value position.
pub fn expr_kind_path(_alloc: Global, place: PlaceExpr) -> Result<ExprKind, NoMemory>
    ensures { IfOk result (λ part. part ≡ ExprKind.Path place) }
{
    Ok(ExprKind::Path(place))
}

/// `f(x)` for its result.
pub fn expr_kind_call(_alloc: Global, call: Call) -> Result<ExprKind, NoMemory>
    ensures { IfOk result (λ part. part ≡ ExprKind.Call call) }
{
    Ok(ExprKind::Call(call))
}

/// `await handle` for the result of the task.
pub fn expr_kind_await(_alloc: Global, handle: Name) -> Result<ExprKind, NoMemory>
    ensures { IfOk result (λ part. part ≡ ExprKind.Await handle) }
{
    Ok(ExprKind::Await(handle))
}

/// `[a, b]`; the source has at least one element.
pub fn expr_kind_array_lit(_alloc: Global, elements: Vec<Expr>) -> Result<ExprKind, NoMemory>
    ensures { IfOk result (λ part. part ≡ ExprKind.ArrayLit elements.items) }
{
    Ok(ExprKind::ArrayLit(Items::from_vec(elements)))
}

/// `filled(len, value)`. Takes memory for both.
pub fn expr_kind_filled(alloc: Global, len: Expr, value: Expr) -> Result<ExprKind, NoMemory>
    ensures { IfOk result (λ part. part ≡ ExprKind.Filled len value) }
{
    let len = Boxed::new(alloc, len)?;
    let value = Boxed::new(alloc, value)?;
    Ok(ExprKind::Filled(len, value))
}

/// `count(place)`.
pub fn expr_kind_count(_alloc: Global, place: PlaceExpr) -> Result<ExprKind, NoMemory>
    ensures { IfOk result (λ part. part ≡ ExprKind.Count place) }
{
    Ok(ExprKind::Count(place))
}

/// `fun [captures] (params) -> returned body`.
pub fn expr_kind_lambda(
    _alloc: Global,
    captures: Vec<Name>,
    params: Vec<Param>,
    returned: Option<Ty>,
    body: Block,
) -> Result<ExprKind, NoMemory>
    ensures { IfOk result (λ part. part ≡ ExprKind.Lambda captures.items params.items returned body) }
{
    Ok(ExprKind::Lambda(
        Items::from_vec(captures),
        Items::from_vec(params),
        returned,
        body,
    ))
}

/// `-operand` or `!operand`. Takes memory for the operand.
pub fn expr_kind_prefix(
    alloc: Global,
    operator: Operator,
    operand: Expr,
) -> Result<ExprKind, NoMemory>
    ensures { IfOk result (λ part. part ≡ ExprKind.Prefix operator operand) }
{
    let operand = Boxed::new(alloc, operand)?;
    Ok(ExprKind::Prefix(operator, operand))
}

/// `first`, then each operator with its place and its right operand. Takes memory for `first`.
pub fn expr_kind_chain(
    alloc: Global,
    first: Expr,
    links: Vec<(Operator, Place, Expr)>,
) -> Result<ExprKind, NoMemory>
    ensures { IfOk result (λ part. part ≡ ExprKind.Chain first links.items) }
{
    let first = Boxed::new(alloc, first)?;
    Ok(ExprKind::Chain(first, Items::from_vec(links)))
}
