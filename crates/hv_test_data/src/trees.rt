use hv_tree::builders::{
    arg_ref, arg_value, block, branch, call, decl_fun, decl_struct, expr, expr_kind_array_lit,
    expr_kind_await, expr_kind_bool, expr_kind_call, expr_kind_chain, expr_kind_count,
    expr_kind_filled, expr_kind_int, expr_kind_lambda, expr_kind_path, expr_kind_prefix, field,
    fun_decl, name, param, place_expr, step_field, step_index, stmt, stmt_kind_assign,
    stmt_kind_await, stmt_kind_block, stmt_kind_call, stmt_kind_if, stmt_kind_inout, stmt_kind_let,
    stmt_kind_print, stmt_kind_return, stmt_kind_task, stmt_kind_var, stmt_kind_while, struct_decl,
    tree, ty_array, ty_bool, ty_fun, ty_int, ty_named,
};
use hv_tree::{
    Arg, Block, Call, Conv, Decl, Expr, ExprKind, Name, Operator, Param, Place, PlaceExpr, Step,
    Stmt, StmtKind, TaskId, Ty, line_col,
};
use std::alloc::{AllocError as NoMemory, Global};
use std::test::Fail;

const HERE: Place = Place { start: 0 };

fn named(alloc: Global, text: &str) -> Result<Name, NoMemory> {
    name(alloc, String::from_str(alloc, text)?, HERE)
}

fn int(alloc: Global, value: i64) -> Result<Expr, NoMemory> {
    expr(alloc, HERE, expr_kind_int(alloc, value)?)
}

fn truth(alloc: Global) -> Result<Expr, NoMemory> {
    expr(alloc, HERE, expr_kind_bool(alloc, true)?)
}

fn add_steps(alloc: Global, steps: &mut Vec<Step>) -> Result<(), NoMemory> {
    steps.push(step_field(alloc, named(alloc, "b")?)?)?;
    steps.push(step_index(alloc, HERE, int(alloc, 1)?)?)?;
    Ok(())
}

// `a.b[1]`
fn stepped(alloc: Global) -> Result<PlaceExpr, NoMemory> {
    let mut steps = Vec::new(alloc);
    add_steps(alloc, &mut steps)?;
    place_expr(alloc, named(alloc, "a")?, steps)
}

fn add_args(alloc: Global, args: &mut Vec<Arg>) -> Result<(), NoMemory> {
    args.push(arg_value(alloc, int(alloc, 1)?)?)?;
    args.push(arg_ref(alloc, HERE, stepped(alloc)?)?)?;
    Ok(())
}

// `a.b[1](1, &a.b[1])`
fn called(alloc: Global) -> Result<Call, NoMemory> {
    let mut args = Vec::new(alloc);
    add_args(alloc, &mut args)?;
    call(alloc, stepped(alloc)?, HERE, args)
}

fn int_param(alloc: Global, conv: Conv) -> Result<Param, NoMemory> {
    param(alloc, named(alloc, "x")?, conv, ty_int(alloc, HERE)?)
}

// `[fun(Int, inout P) -> Bool]`
fn list_type(alloc: Global) -> Result<Ty, NoMemory> {
    let mut params = Vec::new(alloc);
    params.push((Conv::Let, ty_int(alloc, HERE)?))?;
    params.push((Conv::Inout, ty_named(alloc, named(alloc, "P")?)?))?;
    let function = ty_fun(alloc, HERE, params, Some(ty_bool(alloc, HERE)?))?;
    ty_array(alloc, HERE, function)
}

fn empty_block(alloc: Global) -> Result<Block, NoMemory> {
    block(alloc, Vec::new(alloc), HERE)
}

// `fun [a] (x: sink Int) -> Int { }`
fn lambda(alloc: Global) -> Result<ExprKind, NoMemory> {
    let mut captures = Vec::new(alloc);
    captures.push(named(alloc, "a")?)?;
    let mut params = Vec::new(alloc);
    params.push(int_param(alloc, Conv::Sink)?)?;
    let returned = Some(ty_int(alloc, HERE)?);
    expr_kind_lambda(alloc, captures, params, returned, empty_block(alloc)?)
}

// `1 + true`
fn chain(alloc: Global) -> Result<ExprKind, NoMemory> {
    let mut links = Vec::new(alloc);
    links.push((Operator::Add, HERE, truth(alloc)?))?;
    expr_kind_chain(alloc, int(alloc, 1)?, links)
}

fn add_expr(alloc: Global, all: &mut Vec<Expr>, kind: ExprKind) -> Result<(), NoMemory> {
    all.push(expr(alloc, HERE, kind)?)?;
    Ok(())
}

fn add_places(alloc: Global, all: &mut Vec<Expr>) -> Result<(), NoMemory> {
    add_expr(alloc, all, expr_kind_path(alloc, stepped(alloc)?)?)?;
    add_expr(alloc, all, expr_kind_call(alloc, called(alloc)?)?)?;
    add_expr(alloc, all, expr_kind_count(alloc, stepped(alloc)?)?)?;
    Ok(())
}

fn filled(alloc: Global) -> Result<ExprKind, NoMemory> {
    let len = int(alloc, 2)?;
    expr_kind_filled(alloc, len, truth(alloc)?)
}

fn add_values(alloc: Global, all: &mut Vec<Expr>) -> Result<(), NoMemory> {
    add_expr(alloc, all, expr_kind_await(alloc, named(alloc, "h")?)?)?;
    add_expr(alloc, all, filled(alloc)?)?;
    add_expr(alloc, all, lambda(alloc)?)?;
    add_expr(
        alloc,
        all,
        expr_kind_prefix(alloc, Operator::Neg, int(alloc, 1)?)?,
    )?;
    add_expr(alloc, all, chain(alloc)?)?;
    Ok(())
}

// An array with an expression of each kind.
fn every_expr(alloc: Global) -> Result<Expr, NoMemory> {
    let mut all = Vec::new(alloc);
    add_places(alloc, &mut all)?;
    add_values(alloc, &mut all)?;
    expr(alloc, HERE, expr_kind_array_lit(alloc, all)?)
}

fn add(alloc: Global, all: &mut Vec<Stmt>, kind: StmtKind) -> Result<(), NoMemory> {
    all.push(stmt(alloc, HERE, kind)?)?;
    Ok(())
}

fn variable(alloc: Global) -> Result<StmtKind, NoMemory> {
    let declared = named(alloc, "x")?;
    let ty = list_type(alloc)?;
    stmt_kind_var(alloc, declared, ty, Some(every_expr(alloc)?))
}

fn constant(alloc: Global) -> Result<StmtKind, NoMemory> {
    let declared = named(alloc, "y")?;
    let ty = ty_int(alloc, HERE)?;
    stmt_kind_let(alloc, declared, ty, int(alloc, 1)?)
}

fn access(alloc: Global) -> Result<StmtKind, NoMemory> {
    let declared = named(alloc, "z")?;
    let ty = ty_int(alloc, HERE)?;
    stmt_kind_inout(alloc, declared, ty, stepped(alloc)?)
}

fn assignment(alloc: Global) -> Result<StmtKind, NoMemory> {
    let place = stepped(alloc)?;
    stmt_kind_assign(alloc, place, int(alloc, 1)?)
}

fn task(alloc: Global) -> Result<StmtKind, NoMemory> {
    let handle = named(alloc, "h")?;
    let budget = int(alloc, 9)?;
    stmt_kind_task(alloc, handle, None, HERE, budget, called(alloc)?)
}

fn choice(alloc: Global) -> Result<StmtKind, NoMemory> {
    let test = truth(alloc)?;
    let only = branch(alloc, test, empty_block(alloc)?)?;
    let mut branches = Vec::new(alloc);
    branches.push(only)?;
    stmt_kind_if(alloc, branches, Some(empty_block(alloc)?))
}

fn turns(alloc: Global) -> Result<StmtKind, NoMemory> {
    let test = truth(alloc)?;
    stmt_kind_while(alloc, test, empty_block(alloc)?)
}

fn add_bindings(alloc: Global, all: &mut Vec<Stmt>) -> Result<(), NoMemory> {
    add(alloc, all, variable(alloc)?)?;
    add(alloc, all, constant(alloc)?)?;
    add(alloc, all, access(alloc)?)?;
    add(alloc, all, assignment(alloc)?)?;
    add(alloc, all, task(alloc)?)
}

fn add_others(alloc: Global, all: &mut Vec<Stmt>) -> Result<(), NoMemory> {
    add(alloc, all, choice(alloc)?)?;
    add(alloc, all, turns(alloc)?)?;
    add(alloc, all, stmt_kind_return(alloc, None)?)?;
    add(alloc, all, stmt_kind_print(alloc, int(alloc, 1)?)?)?;
    add(alloc, all, stmt_kind_await(alloc, named(alloc, "h")?)?)?;
    add(alloc, all, stmt_kind_call(alloc, called(alloc)?)?)?;
    add(alloc, all, stmt_kind_block(alloc, empty_block(alloc)?)?)
}

fn a_struct(alloc: Global) -> Result<Decl, NoMemory> {
    let mut fields = Vec::new(alloc);
    fields.push(field(alloc, named(alloc, "x")?, ty_int(alloc, HERE)?)?)?;
    decl_struct(alloc, struct_decl(alloc, named(alloc, "P")?, fields)?)
}

fn body(alloc: Global) -> Result<Block, NoMemory> {
    let mut stmts = Vec::new(alloc);
    add_bindings(alloc, &mut stmts)?;
    add_others(alloc, &mut stmts)?;
    block(alloc, stmts, HERE)
}

fn a_function(alloc: Global) -> Result<Decl, NoMemory> {
    let mut params = Vec::new(alloc);
    params.push(int_param(alloc, Conv::Set)?)?;
    let returned = Some(ty_bool(alloc, HERE)?);
    decl_fun(
        alloc,
        fun_decl(alloc, named(alloc, "f")?, params, returned, body(alloc)?)?,
    )
}

#[test]
fn a_tree_with_every_kind_of_part_is_built(rt: HostRuntime) -> Result<(), Fail> {
    let alloc = rt.alloc();
    let mut decls = Vec::new(alloc);
    decls.push(a_struct(alloc)?)?;
    decls.push(a_function(alloc)?)?;
    let program = tree(alloc, decls)?;
    let stmts = match program.decls.get(1) {
        Some(Decl::Fun(function)) => function.body.stmts.len(),
        _ => 0,
    };
    assert_eq!(rt; stmts, 12);
    Ok(())
}

#[test]
fn a_column_counts_characters(rt: HostRuntime) {
    let source = "ab\n\u{20ac}d\n".as_bytes();
    for (start, line, column) in [
        (0, 1, 1),
        (2, 1, 3),
        (3, 2, 1),
        (6, 2, 2),
        (7, 2, 3),
        (8, 3, 1),
        (99, 3, 1),
    ] {
        assert_eq!(rt;
            line_col(source, Place { start }),
            (line, column),
            "at {start}"
        );
    }
}

#[test]
fn a_task_has_a_path(rt: HostRuntime) -> Result<(), Fail> {
    let alloc = rt.alloc();
    let root = TaskId::root(alloc)?;
    let child = root.child(alloc, 10)?.child(alloc, 0)?;
    assert_eq!(rt; child.text(alloc)?.as_slice(), "0.10.0".as_bytes());
    assert_eq!(rt; root.text(alloc)?.as_slice(), "0".as_bytes());
    assert_eq!(rt; child.same(&child.copy(alloc)?), true);
    assert_eq!(rt; child.same(&root), false);
    Ok(())
}
