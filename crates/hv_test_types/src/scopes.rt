use hv_scope::{Declared, Kind, Known, Visible, bodies_of, body_locals};
use hv_tree::{Block, Conv, Decl, Expr, Name, Param, Place, StructDecl, Tree, builders as build};
use std::alloc::{AllocError as NoMemory, Global};
use std::test::Fail;

const AT: Place = Place { start: 0 };

fn name(alloc: Global, text: &str) -> Result<Name, NoMemory> {
    build::name(alloc, String::from_str(alloc, text)?, AT)
}

fn of_kind<'t>(name: &'t Name, kind: Kind) -> Known<'t> {
    Known {
        name,
        kind,
        ty: None,
    }
}

fn shown<'t>(found: Option<Known<'t>>) -> &'static str {
    match found {
        Some(
            Known {
                kind: Kind::Let,
                ..
            },
        ) => "let",
        Some(
            Known {
                kind: Kind::Var,
                ..
            },
        ) => "var",
        Some(_) => "other",
        None => "none",
    }
}

#[test]
fn the_newest_hides_older_ones_until_it_goes(rt: HostRuntime) -> Result<(), Fail> {
    let alloc = rt.alloc();
    let a = name(alloc, "a")?;
    let b = name(alloc, "b")?;
    let mut visible = Visible::new(alloc);
    visible.push(of_kind(&a, Kind::Let))?;
    visible.push(of_kind(&b, Kind::Let))?;
    visible.push(of_kind(&a, Kind::Var))?;
    let rows = [
        (3, "a", "var"),
        (3, "b", "let"),
        (2, "a", "let"),
        (2, "c", "none"),
        (1, "b", "none"),
        (0, "a", "none"),
    ];
    for (len, text, want) in rows {
        visible.shorten(len);
        assert_eq!(rt; shown(visible.find(text)), want, "{text} of {len}");
    }
    Ok(())
}

fn params(alloc: Global, names: &[&str]) -> Result<Vec<Param>, NoMemory> {
    let mut params = Vec::new(alloc);
    for text in names {
        let ty = build::ty_bool(alloc, AT)?;
        params.push(build::param(alloc, name(alloc, text)?, Conv::Let, ty)?)?;
    }
    Ok(params)
}

fn function(alloc: Global, text: &str, params: Vec<Param>, body: Block) -> Result<Decl, NoMemory> {
    let function = build::fun_decl(alloc, name(alloc, text)?, params, None, body)?;
    build::decl_fun(alloc, function)
}

fn empty(alloc: Global) -> Result<Block, NoMemory> {
    build::block(alloc, Vec::new(alloc), AT)
}

fn with_fields(alloc: Global, text: &str, fields: &[&str]) -> Result<StructDecl, NoMemory> {
    let mut list = Vec::new(alloc);
    for field in fields {
        let ty = build::ty_int(alloc, AT)?;
        list.push(build::field(alloc, name(alloc, field)?, ty)?)?;
    }
    build::struct_decl(alloc, name(alloc, text)?, list)
}

// `struct S { var x: Int var y: Int } fun f() { } struct S { var z: Int } struct T { } fun f(a: Bool) { }`
fn declarations(alloc: Global) -> Result<Tree, NoMemory> {
    let mut decls = Vec::new(alloc);
    decls.push(build::decl_struct(alloc, with_fields(alloc, "S", &["x", "y"])?)?)?;
    decls.push(function(alloc, "f", Vec::new(alloc), empty(alloc)?)?)?;
    decls.push(build::decl_struct(alloc, with_fields(alloc, "S", &["z"])?)?)?;
    decls.push(build::decl_struct(alloc, with_fields(alloc, "T", &[])?)?)?;
    decls.push(function(alloc, "f", params(alloc, &["a"])?, empty(alloc)?)?)?;
    build::tree(alloc, decls)
}

#[test]
fn the_first_declaration_with_a_name_counts(rt: HostRuntime) -> Result<(), Fail> {
    let tree = declarations(rt.alloc())?;
    let declared = Declared::new(rt.alloc(), &tree)?;
    assert_eq!(rt; declared.structs().len(), 3);
    for (text, want) in [("S", Some(0)), ("T", Some(2)), ("f", None)] {
        assert_eq!(rt; declared.struct_number(text), want, "{text}");
        assert_eq!(rt;
            declared.find_struct(text).is_some(),
            want.is_some(),
            "{text}"
        );
    }
    for (of, text, want) in [("S", "y", Some(1)), ("S", "z", None), ("T", "x", None)] {
        let number = declared.find_field(of, text).map(|found| found.0);
        assert_eq!(rt; number, want, "{of}.{text}");
    }
    for (text, want) in [("f", Some(0)), ("S", None)] {
        let count = declared.find_function(text).map(|found| found.params.len());
        assert_eq!(rt; count, want, "{text}");
    }
    Ok(())
}

// `fun [a] (c: Bool) { }`
fn lambda(alloc: Global) -> Result<Expr, NoMemory> {
    let mut captures = Vec::new(alloc);
    captures.push(name(alloc, "a")?)?;
    let inner = params(alloc, &["c"])?;
    let kind = build::expr_kind_lambda(alloc, captures, inner, None, empty(alloc)?)?;
    build::expr(alloc, AT, kind)
}

// `fun f(a: Bool) { var l: Bool = fun [a] (c: Bool) { } } fun g() { }`
fn nested(alloc: Global) -> Result<Tree, NoMemory> {
    let ty = build::ty_bool(alloc, AT)?;
    let kind = build::stmt_kind_var(alloc, name(alloc, "l")?, ty, Some(lambda(alloc)?))?;
    let mut stmts = Vec::new(alloc);
    stmts.push(build::stmt(alloc, AT, kind)?)?;
    let body = build::block(alloc, stmts, AT)?;
    let mut decls = Vec::new(alloc);
    decls.push(function(alloc, "f", params(alloc, &["a"])?, body)?)?;
    decls.push(function(alloc, "g", Vec::new(alloc), empty(alloc)?)?)?;
    build::tree(alloc, decls)
}

#[test]
fn each_body_has_its_own_locals(rt: HostRuntime) -> Result<(), Fail> {
    let tree = nested(rt.alloc())?;
    let bodies = bodies_of(rt.alloc(), &tree)?;
    assert_eq!(rt; bodies.len(), 3);
    let rows = [
        (0, "a", Some(0)),
        (0, "l", Some(1)),
        (0, "c", None),
        (1, "a", Some(0)),
        (1, "c", Some(1)),
        (1, "l", None),
        (2, "a", None),
    ];
    for (number, text, want) in rows {
        let locals = body_locals(rt.alloc(), &bodies[number])?;
        let found = locals.find(text).map(|found| found.0);
        assert_eq!(rt; found, want, "{text} in body {number}");
    }
    Ok(())
}
