use hv_items::Items;
use hv_tree::builders::{
    block, decl_fun, decl_struct, expr, expr_kind_int, expr_kind_lambda, expr_kind_path, field,
    fun_decl, name, param, place_expr, stmt, stmt_kind_block, stmt_kind_print, stmt_kind_var,
    struct_decl, ty_int, ty_named,
};
use hv_tree::{Block, Conv, Decl, Expr, Name, Param, Place, Refusal, Rule, Stmt, Tree, Ty};
use hv_type_names::names;
use std::alloc::{AllocError as NoMemory, Global};
use std::test::Fail;

const HERE: Place = Place { start: 0 };

fn named(alloc: Global, text: &str, start: u32) -> Result<Name, NoMemory> {
    name(alloc, String::from_str(alloc, text)?, Place { start })
}

fn one(alloc: Global) -> Result<Expr, NoMemory> {
    expr(alloc, HERE, expr_kind_int(alloc, 1)?)
}

// The local or the function with this name.
fn path(alloc: Global, text: &str, start: u32) -> Result<Expr, NoMemory> {
    let place = place_expr(alloc, named(alloc, text, start)?, Vec::new(alloc))?;
    expr(alloc, HERE, expr_kind_path(alloc, place)?)
}

// `var NAME: TYPE = VALUE`
fn var(alloc: Global, text: &str, start: u32, ty: Ty, value: Expr) -> Result<Stmt, NoMemory> {
    let name = named(alloc, text, start)?;
    stmt(alloc, HERE, stmt_kind_var(alloc, name, ty, Some(value))?)
}

// `var NAME: Int = 1`
fn int_var(alloc: Global, text: &str, start: u32) -> Result<Stmt, NoMemory> {
    var(alloc, text, start, ty_int(alloc, HERE)?, one(alloc)?)
}

fn print(alloc: Global, value: Expr) -> Result<Stmt, NoMemory> {
    stmt(alloc, HERE, stmt_kind_print(alloc, value)?)
}

fn body(alloc: Global, stmts: Vec<Stmt>) -> Result<Block, NoMemory> {
    block(alloc, stmts, HERE)
}

fn in_block(alloc: Global, inner: Stmt) -> Result<Stmt, NoMemory> {
    let inner = body(alloc, vec![in alloc; inner]?)?;
    stmt(alloc, HERE, stmt_kind_block(alloc, inner)?)
}

// `fun [CAPTURES] () { STMTS }`
fn lambda(alloc: Global, captures: Vec<Name>, stmts: Vec<Stmt>) -> Result<Expr, NoMemory> {
    let body = body(alloc, stmts)?;
    let kind = expr_kind_lambda(alloc, captures, Vec::new(alloc), None, body)?;
    expr(alloc, HERE, kind)
}

// `fun NAME(PARAMS) -> RESULT { STMTS }`
fn fun_with(
    alloc: Global,
    name: Name,
    params: Vec<Param>,
    returned: Option<Ty>,
    stmts: Vec<Stmt>,
) -> Result<Decl, NoMemory> {
    let body = body(alloc, stmts)?;
    decl_fun(alloc, fun_decl(alloc, name, params, returned, body)?)
}

// `fun NAME() { STMTS }`
fn fun(alloc: Global, text: &str, start: u32, stmts: Vec<Stmt>) -> Result<Decl, NoMemory> {
    let name = named(alloc, text, start)?;
    fun_with(alloc, name, Vec::new(alloc), None, stmts)
}

// `NAME: Int`
fn int_param(alloc: Global, text: &str, start: u32) -> Result<Param, NoMemory> {
    let ty = ty_int(alloc, HERE)?;
    param(alloc, named(alloc, text, start)?, Conv::Let, ty)
}

// `fun main(PARAMS) -> RESULT { }` from the first byte on
fn main_with(alloc: Global, params: Vec<Param>, returned: Option<Ty>) -> Result<Decl, NoMemory> {
    let main = named(alloc, "main", 4)?;
    fun_with(alloc, main, params, returned, Vec::new(alloc))
}

// `fun main() { STMTS }` from the first byte on
fn main_of(alloc: Global, stmts: Vec<Stmt>) -> Result<Decl, NoMemory> {
    fun(alloc, "main", 4, stmts)
}

// `struct P { var FIELD: Int .. }` from the first byte on, its fields 11 bytes apart
fn point(alloc: Global, fields: &[&str]) -> Result<Decl, NoMemory> {
    let mut declared = Vec::new(alloc);
    let mut start = 15;
    for text in fields {
        let ty = ty_int(alloc, HERE)?;
        declared.push(field(alloc, named(alloc, text, start)?, ty)?)?;
        start = start.saturating_add(11);
    }
    let declared = struct_decl(alloc, named(alloc, "P", 7)?, declared)?;
    decl_struct(alloc, declared)
}

fn judged(alloc: Global, decls: Vec<Decl>) -> Result<Option<Refusal>, NoMemory> {
    let tree = Tree {
        decls: Items::from_vec(decls),
    };
    names(alloc, &tree)
}

fn refused(rule: Rule, start: u32) -> Option<Refusal> {
    Some(Refusal {
        rule,
        place: Place { start },
    })
}

#[test]
fn a_name_may_not_be_declared_twice(rt: HostRuntime) -> Result<(), Fail> {
    let alloc = rt.alloc();
    let main = || main_of(alloc, Vec::new(alloc));

    // `fun main() { } fun main() { }`, and with another name
    let again = fun(alloc, "main", 19, Vec::new(alloc))?;
    let decls = vec![in alloc; main()?, again]?;
    assert_eq!(rt; judged(alloc, decls)?, refused(Rule::N1, 19));
    let other = fun(alloc, "f", 19, Vec::new(alloc))?;
    assert_eq!(rt; judged(alloc, vec![in alloc; main()?, other]?)?, None);

    // `struct P { var x: Int var x: Int } fun main() { }`, and with y
    let decls = vec![in alloc; point(alloc, &["x", "x"])?, main()?]?;
    assert_eq!(rt; judged(alloc, decls)?, refused(Rule::N1, 26));
    let decls = vec![in alloc; point(alloc, &["x", "y"])?, main()?]?;
    assert_eq!(rt; judged(alloc, decls)?, None);

    // `fun main() { } fun f(x: Int, x: Int) { }`, and with y
    for (second, want) in [("x", refused(Rule::N1, 30)), ("y", None)] {
        let params = vec![in alloc; int_param(alloc, "x", 22)?, int_param(alloc, second, 30)?]?;
        let name = named(alloc, "f", 20)?;
        let f = fun_with(alloc, name, params, None, Vec::new(alloc))?;
        assert_eq!(rt; judged(alloc, vec![in alloc; main()?, f]?)?, want);
    }

    // `fun main() { { var x: Int = 1 } var x: Int = 1 }`, and with y
    let inner = in_block(alloc, int_var(alloc, "x", 19)?)?;
    let stmts = vec![in alloc; inner, int_var(alloc, "x", 36)?]?;
    let decls = vec![in alloc; main_of(alloc, stmts)?]?;
    assert_eq!(rt; judged(alloc, decls)?, refused(Rule::N1, 36));
    let inner = in_block(alloc, int_var(alloc, "x", 19)?)?;
    let stmts = vec![in alloc; inner, int_var(alloc, "y", 36)?]?;
    let decls = vec![in alloc; main_of(alloc, stmts)?]?;
    assert_eq!(rt; judged(alloc, decls)?, None);
    Ok(())
}

#[test]
fn a_local_and_a_declaration_share_no_name(rt: HostRuntime) -> Result<(), Fail> {
    let alloc = rt.alloc();

    // `fun main() { var f: Int = 1 } fun f() { }`
    let stmts = vec![in alloc; int_var(alloc, "f", 17)?]?;
    let f = fun(alloc, "f", 34, Vec::new(alloc))?;
    let decls = vec![in alloc; main_of(alloc, stmts)?, f]?;
    assert_eq!(rt; judged(alloc, decls)?, refused(Rule::N1, 34));

    // `fun f() { } fun main() { var f: Int = 1 }`
    let stmts = vec![in alloc; int_var(alloc, "f", 29)?]?;
    let f = fun(alloc, "f", 4, Vec::new(alloc))?;
    let decls = vec![in alloc; f, fun(alloc, "main", 16, stmts)?]?;
    assert_eq!(rt; judged(alloc, decls)?, refused(Rule::N1, 29));

    // `fun f() { } fun main() { var g: Int = 1 }`
    let stmts = vec![in alloc; int_var(alloc, "g", 29)?]?;
    let f = fun(alloc, "f", 4, Vec::new(alloc))?;
    let decls = vec![in alloc; f, fun(alloc, "main", 16, stmts)?]?;
    assert_eq!(rt; judged(alloc, decls)?, None);
    Ok(())
}

#[test]
fn a_name_stands_for_something_visible(rt: HostRuntime) -> Result<(), Fail> {
    let alloc = rt.alloc();

    // `fun main() { { var x: Int = 1 } print(x) }`, and with the print in the block's place
    let inner = in_block(alloc, int_var(alloc, "x", 19)?)?;
    let stmts = vec![in alloc; inner, print(alloc, path(alloc, "x", 38)?)?]?;
    let decls = vec![in alloc; main_of(alloc, stmts)?]?;
    assert_eq!(rt; judged(alloc, decls)?, refused(Rule::N2, 38));
    let x = int_var(alloc, "x", 17)?;
    let stmts = vec![in alloc; x, print(alloc, path(alloc, "x", 34)?)?]?;
    let decls = vec![in alloc; main_of(alloc, stmts)?]?;
    assert_eq!(rt; judged(alloc, decls)?, None);

    // `fun main() { var x: Int = x }`
    let x = var(alloc, "x", 17, ty_int(alloc, HERE)?, path(alloc, "x", 26)?)?;
    let decls = vec![in alloc; main_of(alloc, vec![in alloc; x]?)?]?;
    assert_eq!(rt; judged(alloc, decls)?, refused(Rule::N2, 26));

    // `fun main() { var y: Int = 1 var x: Int = y }`
    let y = int_var(alloc, "y", 17)?;
    let x = var(alloc, "x", 32, ty_int(alloc, HERE)?, path(alloc, "y", 41)?)?;
    let decls = vec![in alloc; main_of(alloc, vec![in alloc; y, x]?)?]?;
    assert_eq!(rt; judged(alloc, decls)?, None);

    // `fun main() { var x: main = 1 }`: a function's name is no type
    let ty = ty_named(alloc, named(alloc, "main", 20)?)?;
    let x = var(alloc, "x", 17, ty, one(alloc)?)?;
    let decls = vec![in alloc; main_of(alloc, vec![in alloc; x]?)?]?;
    assert_eq!(rt; judged(alloc, decls)?, refused(Rule::N2, 20));

    // `struct P { } fun main() { var x: P = 1 }`: names alone are judged here
    let ty = ty_named(alloc, named(alloc, "P", 33)?)?;
    let x = var(alloc, "x", 30, ty, one(alloc)?)?;
    let main = fun(alloc, "main", 17, vec![in alloc; x]?)?;
    let decls = vec![in alloc; point(alloc, &[])?, main]?;
    assert_eq!(rt; judged(alloc, decls)?, None);
    Ok(())
}

#[test]
fn a_lambda_sees_its_captures_alone(rt: HostRuntime) -> Result<(), Fail> {
    let alloc = rt.alloc();

    // `fun main() { var x: Int = 1 print(fun [] () { print(x) }) }`
    let inner = vec![in alloc; print(alloc, path(alloc, "x", 52)?)?]?;
    let value = lambda(alloc, Vec::new(alloc), inner)?;
    let stmts = vec![in alloc; int_var(alloc, "x", 17)?, print(alloc, value)?]?;
    let decls = vec![in alloc; main_of(alloc, stmts)?]?;
    assert_eq!(rt; judged(alloc, decls)?, refused(Rule::N2, 52));

    // `fun main() { var x: Int = 1 print(fun [x] () { print(x) }) }`
    let inner = vec![in alloc; print(alloc, path(alloc, "x", 53)?)?]?;
    let value = lambda(alloc, vec![in alloc; named(alloc, "x", 39)?]?, inner)?;
    let stmts = vec![in alloc; int_var(alloc, "x", 17)?, print(alloc, value)?]?;
    let decls = vec![in alloc; main_of(alloc, stmts)?]?;
    assert_eq!(rt; judged(alloc, decls)?, None);

    // `fun main() { print(fun [main] () { }) }`: a function is not captured
    let captures = vec![in alloc; named(alloc, "main", 24)?]?;
    let value = lambda(alloc, captures, Vec::new(alloc))?;
    let stmts = vec![in alloc; print(alloc, value)?]?;
    let decls = vec![in alloc; main_of(alloc, stmts)?]?;
    assert_eq!(rt; judged(alloc, decls)?, refused(Rule::N2, 24));
    Ok(())
}

#[test]
fn a_program_has_a_main(rt: HostRuntime) -> Result<(), Fail> {
    let alloc = rt.alloc();
    assert_eq!(rt; judged(alloc, Vec::new(alloc))?, refused(Rule::N3, 0));
    let decls = vec![in alloc; fun(alloc, "f", 4, Vec::new(alloc))?]?;
    assert_eq!(rt; judged(alloc, decls)?, refused(Rule::N3, 0));
    // `fun main(x: Int) { }` and `fun main() -> Int { }`
    let params = vec![in alloc; int_param(alloc, "x", 9)?]?;
    let decls = vec![in alloc; main_with(alloc, params, None)?]?;
    assert_eq!(rt; judged(alloc, decls)?, refused(Rule::N3, 0));
    let returned = Some(ty_int(alloc, HERE)?);
    let decls = vec![in alloc; main_with(alloc, Vec::new(alloc), returned)?]?;
    assert_eq!(rt; judged(alloc, decls)?, refused(Rule::N3, 0));
    let decls = vec![in alloc; main_of(alloc, Vec::new(alloc))?]?;
    assert_eq!(rt; judged(alloc, decls)?, None);
    Ok(())
}
