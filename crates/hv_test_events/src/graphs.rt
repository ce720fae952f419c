use hv_flow::{FlowGraph, graph};
use hv_rules::FlowEvent;
use hv_tree::{
    Block, Call, Conv, Expr, Name, Operator, Param, Place, PlaceExpr, Stmt, builders as build,
};
use std::alloc::{AllocError as NoMemory, Global};
use std::test::Fail;

const AT: Place = Place { start: 0 };

fn name(alloc: Global, text: &str) -> Result<Name, NoMemory> {
    build::name(alloc, String::from_str(alloc, text)?, AT)
}

fn param(alloc: Global, text: &str, conv: Conv) -> Result<Param, NoMemory> {
    build::param(alloc, name(alloc, text)?, conv, build::ty_bool(alloc, AT)?)
}

fn place(alloc: Global, text: &str) -> Result<PlaceExpr, NoMemory> {
    build::place_expr(alloc, name(alloc, text)?, Vec::new(alloc))
}

fn read(alloc: Global, text: &str) -> Result<Expr, NoMemory> {
    build::expr(
        alloc,
        AT,
        build::expr_kind_path(alloc, place(alloc, text)?)?,
    )
}

fn print(alloc: Global, value: Expr) -> Result<Stmt, NoMemory> {
    build::stmt(alloc, AT, build::stmt_kind_print(alloc, value)?)
}

fn leave(alloc: Global) -> Result<Stmt, NoMemory> {
    build::stmt(alloc, AT, build::stmt_kind_return(alloc, None)?)
}

fn block_of(alloc: Global, stmt: Stmt) -> Result<Block, NoMemory> {
    let mut stmts = Vec::new(alloc);
    stmts.push(stmt)?;
    build::block(alloc, stmts, AT)
}

// Each node's event, and the numbers of those that may come next.
fn shown(alloc: Global, graph: &FlowGraph) -> Result<String, NoMemory> {
    let mut text = String::new(alloc);
    for node in graph.nodes.as_slice() {
        match &node.event {
            FlowEvent::Entry => text.push_str("entry")?,
            FlowEvent::Declare(n) => write!(text, "declare {n}")?,
            FlowEvent::Init(path) => write!(text, "init {}", path.root)?,
            FlowEvent::Use(path) => write!(text, "use {}", path.root)?,
            FlowEvent::OpenRead(path) => write!(text, "read {}", path.root)?,
            FlowEvent::OpenWrite(path) => write!(text, "write {}", path.root)?,
            FlowEvent::Close => text.push_str("close")?,
            FlowEvent::Spawn(n) => write!(text, "spawn {n}")?,
            FlowEvent::Await(n) => write!(text, "await {n}")?,
            FlowEvent::Return => text.push_str("return")?,
            FlowEvent::ScopeEnd(n) => write!(text, "end {n}")?,
            _ => text.push_str("other")?,
        }
        for next in node.next.as_slice() {
            write!(text, ">{next}")?;
        }
        text.push_str("; ")?;
    }
    Ok(text)
}

// The graph of a body in a program with `fun f` and a `fun g(v: Bool, w: inout Bool) { }` behind it.
fn graph_text(
    alloc: Global,
    params: Vec<Param>,
    body: Block,
    number: u32,
) -> Result<String, NoMemory> {
    let f = build::fun_decl(alloc, name(alloc, "f")?, params, None, body)?;
    let mut others = Vec::new(alloc);
    others.push(param(alloc, "v", Conv::Let)?)?;
    others.push(param(alloc, "w", Conv::Inout)?)?;
    let empty = build::block(alloc, Vec::new(alloc), AT)?;
    let g = build::fun_decl(alloc, name(alloc, "g")?, others, None, empty)?;
    let mut decls = Vec::new(alloc);
    decls.push(build::decl_fun(alloc, f)?)?;
    decls.push(build::decl_fun(alloc, g)?)?;
    let tree = build::tree(alloc, decls)?;
    let made = graph(alloc, &tree, number)?;
    shown(alloc, &made)
}

fn params(alloc: Global, names: &[&str]) -> Result<Vec<Param>, NoMemory> {
    let mut params = Vec::new(alloc);
    for text in names {
        params.push(param(alloc, text, Conv::Let)?)?;
    }
    Ok(params)
}

// `if a { print(a) }`
#[test]
fn a_test_leads_into_its_block_and_past_it(rt: HostRuntime) -> Result<(), Fail> {
    let alloc = rt.alloc();
    let branch = build::branch(
        alloc,
        read(alloc, "a")?,
        block_of(alloc, print(alloc, read(alloc, "a")?)?)?,
    )?;
    let mut branches = Vec::new(alloc);
    branches.push(branch)?;
    let kind = build::stmt_kind_if(alloc, branches, None)?;
    let body = block_of(alloc, build::stmt(alloc, AT, kind)?)?;
    assert_eq!(rt;
        graph_text(alloc, params(alloc, &["a"])?, body, 0)?.as_str(),
        "entry>1; declare 0>2; init 0>3; use 0>4>6; use 0>5; end 1>6; end 1; "
    );
    Ok(())
}

// `while a { return; }`
#[test]
fn a_loop_that_returns_has_no_second_turn(rt: HostRuntime) -> Result<(), Fail> {
    let alloc = rt.alloc();
    let kind = build::stmt_kind_while(alloc, read(alloc, "a")?, block_of(alloc, leave(alloc)?)?)?;
    let body = block_of(alloc, build::stmt(alloc, AT, kind)?)?;
    assert_eq!(rt;
        graph_text(alloc, params(alloc, &["a"])?, body, 0)?.as_str(),
        "entry>1; declare 0>2; init 0>3>6; use 0>4; return; end 1>3>6; use 0>7; end 1; "
    );
    Ok(())
}

// `print(a && b || c)`
#[test]
fn each_operand_may_be_the_last_one(rt: HostRuntime) -> Result<(), Fail> {
    let alloc = rt.alloc();
    let mut second = Vec::new(alloc);
    second.push((Operator::And, AT, read(alloc, "b")?))?;
    let both = build::expr_kind_chain(alloc, read(alloc, "a")?, second)?;
    let both = build::expr(alloc, AT, both)?;
    let mut third = Vec::new(alloc);
    third.push((Operator::Or, AT, read(alloc, "c")?))?;
    let any = build::expr(alloc, AT, build::expr_kind_chain(alloc, both, third)?)?;
    let body = block_of(alloc, print(alloc, any)?)?;
    assert_eq!(rt;
        graph_text(alloc, params(alloc, &["a", "b", "c"])?, body, 0)?.as_str(),
        "entry>1; declare 0>2; init 0>3; declare 1>4; init 1>5; declare 2>6; init 2>7; use 0>8>9>10; use 1>9>10; use 2>10; end 3; "
    );
    Ok(())
}

// `{ return; } print(a)`
#[test]
fn nothing_comes_behind_a_return(rt: HostRuntime) -> Result<(), Fail> {
    let alloc = rt.alloc();
    let inner = build::stmt_kind_block(alloc, block_of(alloc, leave(alloc)?)?)?;
    let mut stmts = Vec::new(alloc);
    stmts.push(build::stmt(alloc, AT, inner)?)?;
    stmts.push(print(alloc, read(alloc, "a")?)?)?;
    let body = build::block(alloc, stmts, AT)?;
    assert_eq!(rt;
        graph_text(alloc, params(alloc, &["a"])?, body, 0)?.as_str(),
        "entry>1; declare 0>2; init 0>3; return; end 1>5; use 0>6; end 1; "
    );
    Ok(())
}

// `g(a, &b)`
fn call_of_g(alloc: Global) -> Result<Call, NoMemory> {
    let mut args = Vec::new(alloc);
    args.push(build::arg_value(alloc, read(alloc, "a")?)?)?;
    args.push(build::arg_ref(alloc, AT, place(alloc, "b")?)?)?;
    build::call(alloc, place(alloc, "g")?, AT, args)
}

#[test]
fn a_call_closes_its_accesses_behind_the_last_argument(rt: HostRuntime) -> Result<(), Fail> {
    let alloc = rt.alloc();
    let kind = build::stmt_kind_call(alloc, call_of_g(alloc)?)?;
    let body = block_of(alloc, build::stmt(alloc, AT, kind)?)?;
    assert_eq!(rt;
        graph_text(alloc, params(alloc, &["a", "b"])?, body, 0)?.as_str(),
        "entry>1; declare 0>2; init 0>3; declare 1>4; init 1>5; read 0>6; write 1>7; close>8; close>9; end 2; "
    );
    Ok(())
}

// `task h = spawn(a) g(a, &b) await h`
#[test]
fn a_spawn_closes_each_access_at_once(rt: HostRuntime) -> Result<(), Fail> {
    let alloc = rt.alloc();
    let call = call_of_g(alloc)?;
    let task = build::stmt_kind_task(alloc, name(alloc, "h")?, None, AT, read(alloc, "a")?, call)?;
    let mut stmts = Vec::new(alloc);
    stmts.push(build::stmt(alloc, AT, task)?)?;
    let wait = build::stmt_kind_await(alloc, name(alloc, "h")?)?;
    stmts.push(build::stmt(alloc, AT, wait)?)?;
    let body = build::block(alloc, stmts, AT)?;
    assert_eq!(rt;
        graph_text(alloc, params(alloc, &["a", "b"])?, body, 0)?.as_str(),
        "entry>1; declare 0>2; init 0>3; declare 1>4; init 1>5; use 0>6; use 0>7; write 1>8; close>9; spawn 2>10; await 2>11; end 2; "
    );
    Ok(())
}

// `var l: Bool = fun [a] (c: Bool) { print(a) }` with what is around it: body 0 is `f`, body 1 the lambda, body 2 `g`.
fn lambda_in_f(alloc: Global, number: u32) -> Result<String, NoMemory> {
    let mut captures = Vec::new(alloc);
    captures.push(name(alloc, "a")?)?;
    let inner = block_of(alloc, print(alloc, read(alloc, "a")?)?)?;
    let kind = build::expr_kind_lambda(alloc, captures, params(alloc, &["c"])?, None, inner)?;
    let value = build::expr(alloc, AT, kind)?;
    let ty = build::ty_bool(alloc, AT)?;
    let kind = build::stmt_kind_var(alloc, name(alloc, "l")?, ty, Some(value))?;
    let body = block_of(alloc, build::stmt(alloc, AT, kind)?)?;
    graph_text(alloc, params(alloc, &["a"])?, body, number)
}

#[test]
fn a_lambda_is_a_body_of_its_own(rt: HostRuntime) -> Result<(), Fail> {
    let rows = [
        (
            0,
            "entry>1; declare 0>2; init 0>3; use 0>4; declare 1>5; init 1>6; end 1; ",
        ),
        (
            1,
            "entry>1; declare 0>2; init 0>3; declare 1>4; init 1>5; use 0>6; end 2; ",
        ),
        (
            2,
            "entry>1; declare 0>2; init 0>3; declare 1>4; init 1>5; end 2; ",
        ),
        (3, ""),
    ];
    for (number, want) in rows {
        assert_eq!(rt;
            lambda_in_f(rt.alloc(), number)?.as_str(),
            want,
            "body {number}"
        );
    }
    Ok(())
}
