use hv_flow_plan::{FlowOp, plans};
use hv_rules::FlowEvent;
use hv_tree::{Block, Conv, Decl, Expr, Name, Operator, Param, Place, Tree, builders as build};
use std::alloc::{AllocError as NoMemory, Global};
use std::test::Fail;

const AT: Place = Place { start: 0 };

fn name(alloc: Global, text: &str) -> Result<Name, NoMemory> {
    build::name(alloc, String::from_str(alloc, text)?, AT)
}

fn read(alloc: Global, text: &str) -> Result<Expr, NoMemory> {
    let place = build::place_expr(alloc, name(alloc, text)?, Vec::new(alloc))?;
    build::expr(alloc, AT, build::expr_kind_path(alloc, place)?)
}

// `print(a && a)`
fn body(alloc: Global) -> Result<Block, NoMemory> {
    let mut links = Vec::new(alloc);
    links.push((Operator::And, AT, read(alloc, "a")?))?;
    let both = build::expr_kind_chain(alloc, read(alloc, "a")?, links)?;
    let both = build::expr(alloc, AT, both)?;
    let mut stmts = Vec::new(alloc);
    stmts.push(build::stmt(alloc, AT, build::stmt_kind_print(alloc, both)?)?)?;
    build::block(alloc, stmts, AT)
}

fn function(alloc: Global, params: Vec<Param>, body: Block) -> Result<Decl, NoMemory> {
    let function = build::fun_decl(alloc, name(alloc, "f")?, params, None, body)?;
    build::decl_fun(alloc, function)
}

// `fun f(a: Bool) { print(a && a) } fun f() { }`
fn program(alloc: Global) -> Result<Tree, NoMemory> {
    let mut params = Vec::new(alloc);
    let ty = build::ty_bool(alloc, AT)?;
    params.push(build::param(alloc, name(alloc, "a")?, Conv::Let, ty)?)?;
    let empty = build::block(alloc, Vec::new(alloc), AT)?;
    let mut decls = Vec::new(alloc);
    decls.push(function(alloc, params, body(alloc)?)?)?;
    decls.push(function(alloc, Vec::new(alloc), empty)?)?;
    build::tree(alloc, decls)
}

fn word(op: &FlowOp) -> &'static str {
    match op {
        FlowOp::Skip => "skip ",
        FlowOp::Do(FlowEvent::Entry, _) => "entry ",
        FlowOp::Do(FlowEvent::Declare(0), _) => "declare ",
        FlowOp::Do(FlowEvent::Init(_), _) => "init ",
        FlowOp::Do(FlowEvent::Use(_), _) => "use ",
        FlowOp::Do(FlowEvent::ScopeEnd(_), _) => "end ",
        FlowOp::Do(_, _) => "do ",
        FlowOp::Stop(_, _) => "stop ",
        FlowOp::Then => "then ",
        FlowOp::Either => "either ",
        FlowOp::Loop => "loop ",
    }
}

#[test]
fn each_body_has_its_plan(rt: HostRuntime) -> Result<(), Fail> {
    let alloc = rt.alloc();
    let tree = program(alloc)?;
    let mut text = String::new(alloc);
    for planned in plans(alloc, &tree)? {
        for op in planned.plan.as_slice() {
            text.push_str(word(op))?;
        }
        text.push_str("| ")?;
    }
    assert_eq!(rt;
        text.as_str(),
        "then entry then then then declare init skip then then then then skip use either skip then then skip use skip skip end | then entry then skip then skip end | "
    );
    Ok(())
}
