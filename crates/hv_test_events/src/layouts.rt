use hv_decls::{StaticPath, StaticStep};
use hv_flow_pass::Range;
use hv_flow_plan::plan_of_body;
use hv_init_layout::Layout;
use hv_init_leaves::Sizes;
use hv_items::Items;
use hv_scope::{Body, Declared, bodies_of};
use hv_tree::{Block, Conv, Decl, Field, Name, Param, Place, Tree, builders as build};
use std::alloc::{AllocError as NoMemory, Global};
use std::test::Fail;

const AT: Place = Place { start: 0 };

fn name(alloc: Global, text: &str) -> Result<Name, NoMemory> {
    build::name(alloc, String::from_str(alloc, text)?, AT)
}

fn field(alloc: Global, text: &str) -> Result<Field, NoMemory> {
    build::field(alloc, name(alloc, text)?, build::ty_int(alloc, AT)?)
}

// `struct P { var a: Int var b: Int var c: Int var d: Int }`
fn four(alloc: Global) -> Result<Decl, NoMemory> {
    let mut fields = Vec::new(alloc);
    fields.push(field(alloc, "a")?)?;
    fields.push(field(alloc, "b")?)?;
    fields.push(field(alloc, "c")?)?;
    fields.push(field(alloc, "d")?)?;
    build::decl_struct(alloc, build::struct_decl(alloc, name(alloc, "P")?, fields)?)
}

fn param(alloc: Global, text: &str, conv: Conv) -> Result<Param, NoMemory> {
    let ty = build::ty_named(alloc, name(alloc, "P")?)?;
    build::param(alloc, name(alloc, text)?, conv, ty)
}

// `{ print(p.b) }`
fn body(alloc: Global) -> Result<Block, NoMemory> {
    let mut steps = Vec::new(alloc);
    steps.push(build::step_field(alloc, name(alloc, "b")?)?)?;
    let place = build::place_expr(alloc, name(alloc, "p")?, steps)?;
    let read = build::expr(alloc, AT, build::expr_kind_path(alloc, place)?)?;
    let mut stmts = Vec::new(alloc);
    stmts.push(build::stmt(alloc, AT, build::stmt_kind_print(alloc, read)?)?)?;
    build::block(alloc, stmts, AT)
}

// The struct and `fun f(p: set P, r: P, q: set P) { print(p.b) }`.
fn program(alloc: Global) -> Result<Tree, NoMemory> {
    let mut params = Vec::new(alloc);
    params.push(param(alloc, "p", Conv::Set)?)?;
    params.push(param(alloc, "r", Conv::Let)?)?;
    params.push(param(alloc, "q", Conv::Set)?)?;
    let f = build::fun_decl(alloc, name(alloc, "f")?, params, None, body(alloc)?)?;
    let mut decls = Vec::new(alloc);
    decls.push(four(alloc)?)?;
    decls.push(build::decl_fun(alloc, f)?)?;
    build::tree(alloc, decls)
}

fn path(alloc: Global, root: u32, field: u32) -> Result<StaticPath, NoMemory> {
    let mut steps = Items::new(alloc);
    steps.push(StaticStep::Field(field))?;
    Ok(StaticPath { root, steps })
}

fn cells(from: u32, count: u32) -> Range {
    Range { from, count }
}

fn layout_of<'s>(
    alloc: Global,
    declared: &Declared<'_>,
    sizes: &'s Sizes,
    body: &Body<'_>,
) -> Result<Layout<'s>, NoMemory> {
    let plan = plan_of_body(alloc, declared, body)?;
    Layout::of(alloc, declared, sizes, body, plan.as_slice())
}

// The cells of `p`, `p.a`, `p.b`, `r`, `r.b`, `q`, and of all locals.
fn found(alloc: Global, layout: &Layout<'_>) -> Result<[Range; 7], NoMemory> {
    let a = path(alloc, 0, 0)?;
    let b = path(alloc, 0, 1)?;
    let none = path(alloc, 1, 1)?;
    Ok([
        layout.local_cells(0)?,
        layout.path_cells(&a)?,
        layout.path_cells(&b)?,
        layout.local_cells(1)?,
        layout.path_cells(&none)?,
        layout.local_cells(2)?,
        layout.span_cells(0, 3)?,
    ])
}

// The leaves of `p` are parted around `p.b`, those of `q` nowhere; `r` has its value all the time.
#[test]
fn leaves_that_no_event_parts_share_a_cell(rt: HostRuntime) -> Result<(), Fail> {
    let alloc = rt.alloc();
    let tree = program(alloc)?;
    let declared = Declared::new(alloc, &tree)?;
    let sizes = Sizes::of(alloc, &declared)?;
    let bodies = bodies_of(alloc, &tree)?;
    assert_eq!(rt; bodies.len(), 1);
    let wanted = [
        cells(1, 3),
        cells(1, 1),
        cells(2, 1),
        cells(4, 0),
        cells(4, 0),
        cells(4, 1),
        cells(1, 4),
    ];
    for body in &bodies {
        let layout = layout_of(alloc, &declared, &sizes, body)?;
        assert_eq!(rt; found(alloc, &layout)?, wanted);
        assert_eq!(rt; layout.free_cell(), cells(0, 1));
    }
    Ok(())
}
