// The bodies of a program, in the order of their opening braces.
ghost use Rattle.std.specs.Prelude.{◌≡◌, ◌++◌, ◌∷◌, [], map, length, IfOk, OnOk};
ghost use Rattle.hv_tree.specs.Core.{core_of, core_param, core_option_ty, core_block, core_exprs, core_links, core_steps, core_step, NoSteps, core_call, core_args, core_arg, NoArgs, core_stmt, core_stmts, core_decl, core_tree};
ghost use Rattle.hv_decls.specs.Locals.{param_local};
ghost use Rattle.hv_decls.specs.Sites as sites;
ghost use Rattle.hv_scope.specs.Known.{local_by};
ghost use Rattle.hv_scope.specs.Bodies as spec;
ghost use Rattle.hv_scope.specs.Oldest.{oldest};

use crate::bound::{captures_of, push_bound, visible_first};
use crate::known::Known;
use crate::visible::Visible;
use hv_tree::{
    Arg, Block, Branch, Call, Decl, Expr, ExprKind, FunDecl, Operator, Param, Place, Step, Stmt,
    StmtKind, Tree, Ty,
};
use std::alloc::{AllocError as NoMemory, Global};

/// The body of a function or a lambda; a function has no captures.
#[derive(Drop)]
pub struct Body<'t> {
    pub captures: Vec<Known<'t>>,
    pub params: &'t [Param],
    pub returned: &'t Option<Ty>,
    pub block: &'t Block,
}

// Adds a body, and tells what is visible at its beginning.
fn push_body<'t>(
    alloc: Global,
    bodies: &mut Vec<Body<'t>>,
    captures: Vec<Known<'t>>,
    params: &'t [Param],
    returned: &'t Option<Ty>,
    block: &'t Block,
) -> Result<Visible<'t>, NoMemory>
    ensures added { OnOk result (map spec.body_by bodies.new.items ≡ map spec.body_by bodies.old.items ++ spec.body_with (map local_by captures.entry.items) params.now returned.now block.now ∷ []) }
    ensures visible { IfOk result (λ v. map local_by v ≡ map local_by captures.entry.items ++ map param_local (map core_param params.now)) }
{
    let visible = visible_first(alloc, captures.as_slice(), params)?;
    bodies.push(Body {
        captures,
        params,
        returned,
        block,
    })?;
    Ok(visible)
}

#[cycle(bodies)]
#[tactic(auto, using(crate::proofs::BodyVariants::expr_path, crate::proofs::BodyVariants::expr_call, crate::proofs::BodyVariants::expr_array_lit, crate::proofs::BodyVariants::expr_filled, crate::proofs::BodyVariants::expr_count, crate::proofs::BodyVariants::expr_lambda, crate::proofs::BodyVariants::expr_prefix, crate::proofs::BodyVariants::expr_chain))]
fn add_expr<'t>(
    alloc: Global,
    visible: &Visible<'t>,
    bodies: &mut Vec<Body<'t>>,
    x: &'t Expr,
) -> Result<(), NoMemory>
    ensures { OnOk result (map spec.body_by bodies.new.items ≡ map spec.body_by bodies.old.items ++ spec.expr_bodies (map local_by visible.now) (core_of x.now)) }
{
    match &x.kind {
        ExprKind::Int(_) => Ok(()),
        ExprKind::Bool(_) => Ok(()),
        ExprKind::Path(place) => add_steps(alloc, visible, bodies, place.steps.as_slice()),
        ExprKind::Call(call) => add_call(alloc, visible, bodies, call),
        ExprKind::Await(_) => Ok(()),
        ExprKind::ArrayLit(parts) => add_parts(alloc, visible, bodies, parts.as_slice()),
        ExprKind::Filled(len, value) => {
            add_expr(alloc, visible, bodies, len.get())?;
            add_expr(alloc, visible, bodies, value.get())
        }
        ExprKind::Count(place) => add_steps(alloc, visible, bodies, place.steps.as_slice()),
        ExprKind::Lambda(captures, params, returned, body) => {
            let captures = captures_of(alloc, visible, captures.as_slice())?;
            let mut inner = push_body(alloc, bodies, captures, params.as_slice(), returned, body)?;
            add_block(alloc, &mut inner, bodies, body)
        }
        ExprKind::Prefix(_, operand) => add_expr(alloc, visible, bodies, operand.get()),
        ExprKind::Chain(first, links) => {
            add_expr(alloc, visible, bodies, first.get())?;
            add_links(alloc, visible, bodies, links.as_slice())
        }
    }
}

#[cycle(bodies)]
fn add_parts<'t>(
    alloc: Global,
    visible: &Visible<'t>,
    bodies: &mut Vec<Body<'t>>,
    parts: &'t [Expr],
) -> Result<(), NoMemory>
    ensures { OnOk result (map spec.body_by bodies.new.items ≡ map spec.body_by bodies.old.items ++ spec.part_bodies (map local_by visible.now) (core_exprs parts.now)) }
{
    for part in parts {
        add_expr(alloc, visible, bodies, part)?;
    }
    Ok(())
}

#[cycle(bodies)]
fn add_links<'t>(
    alloc: Global,
    visible: &Visible<'t>,
    bodies: &mut Vec<Body<'t>>,
    links: &'t [(Operator, Place, Expr)],
) -> Result<(), NoMemory>
    ensures { OnOk result (map spec.body_by bodies.new.items ≡ map spec.body_by bodies.old.items ++ spec.link_bodies (map local_by visible.now) (core_links links.now)) }
{
    for (_, _, operand) in links {
        add_expr(alloc, visible, bodies, operand)?;
    }
    Ok(())
}

#[cycle(bodies)]
fn add_steps<'t>(
    alloc: Global,
    visible: &Visible<'t>,
    bodies: &mut Vec<Body<'t>>,
    steps: &'t [Step],
) -> Result<(), NoMemory>
    ensures { OnOk result (map spec.body_by bodies.new.items ≡ map spec.body_by bodies.old.items ++ spec.step_bodies (map local_by visible.now) (core_steps steps.now)) }
{
    for step in steps {
        add_step(alloc, visible, bodies, step)?;
    }
    Ok(())
}

#[cycle(bodies)]
#[tactic(auto, using(crate::proofs::BodyVariants::step_index))]
fn add_step<'t>(
    alloc: Global,
    visible: &Visible<'t>,
    bodies: &mut Vec<Body<'t>>,
    step: &'t Step,
) -> Result<(), NoMemory>
    ensures { OnOk result (map spec.body_by bodies.new.items ≡ map spec.body_by bodies.old.items ++ spec.step_bodies (map local_by visible.now) (core_step step.now NoSteps)) }
{
    match step {
        Step::Field(_) => Ok(()),
        Step::Index(_, index) => add_expr(alloc, visible, bodies, index),
    }
}

#[cycle(bodies)]
#[tactic(auto, using(crate::proofs::BodyVariants::call_opened))]
fn add_call<'t>(
    alloc: Global,
    visible: &Visible<'t>,
    bodies: &mut Vec<Body<'t>>,
    call: &'t Call,
) -> Result<(), NoMemory>
    ensures { OnOk result (map spec.body_by bodies.new.items ≡ map spec.body_by bodies.old.items ++ spec.call_bodies (map local_by visible.now) (core_call call.now)) }
{
    add_steps(alloc, visible, bodies, call.callee.steps.as_slice())?;
    add_args(alloc, visible, bodies, call.args.as_slice())
}

#[cycle(bodies)]
fn add_args<'t>(
    alloc: Global,
    visible: &Visible<'t>,
    bodies: &mut Vec<Body<'t>>,
    args: &'t [Arg],
) -> Result<(), NoMemory>
    ensures { OnOk result (map spec.body_by bodies.new.items ≡ map spec.body_by bodies.old.items ++ spec.arg_bodies (map local_by visible.now) (core_args args.now)) }
{
    for arg in args {
        add_arg(alloc, visible, bodies, arg)?;
    }
    Ok(())
}

#[cycle(bodies)]
#[tactic(auto, using(crate::proofs::BodyVariants::arg_value, crate::proofs::BodyVariants::arg_ref))]
fn add_arg<'t>(
    alloc: Global,
    visible: &Visible<'t>,
    bodies: &mut Vec<Body<'t>>,
    arg: &'t Arg,
) -> Result<(), NoMemory>
    ensures { OnOk result (map spec.body_by bodies.new.items ≡ map spec.body_by bodies.old.items ++ spec.arg_bodies (map local_by visible.now) (core_arg arg.now NoArgs)) }
{
    match arg {
        Arg::Value(x) => add_expr(alloc, visible, bodies, x),
        Arg::Ref(_, place) => add_steps(alloc, visible, bodies, place.steps.as_slice()),
    }
}

#[cycle(bodies)]
#[tactic(auto, using(crate::proofs::BodyVariants::block_opened))]
fn add_block<'t>(
    alloc: Global,
    visible: &mut Visible<'t>,
    bodies: &mut Vec<Body<'t>>,
    block: &'t Block,
) -> Result<(), NoMemory>
    ensures bodies { OnOk result (map spec.body_by bodies.new.items ≡ map spec.body_by bodies.old.items ++ spec.block_bodies (map local_by visible.old) (core_block block.now)) }
    ensures visible { OnOk result (visible.new ≡ visible.old) }
{
    let depth = visible.len();
    add_stmts(alloc, visible, bodies, block.stmts.as_slice())?;
    visible.shorten(depth);
    Ok(())
}

#[cycle(bodies)]
fn add_stmts<'t>(
    alloc: Global,
    visible: &mut Visible<'t>,
    bodies: &mut Vec<Body<'t>>,
    stmts: &'t [Stmt],
) -> Result<(), NoMemory>
    ensures bodies { OnOk result (map spec.body_by bodies.new.items ≡ map spec.body_by bodies.old.items ++ spec.stmts_bodies (map local_by visible.old) (core_stmts stmts.now)) }
    ensures kept { OnOk result (oldest (length visible.old) visible.new ≡ visible.old) }
{
    for stmt in stmts {
        add_stmt(alloc, visible, bodies, stmt)?;
        push_bound(visible, stmt)?;
    }
    Ok(())
}

#[cycle(bodies)]
#[tactic(auto, using(crate::proofs::BodyVariants::stmt_var, crate::proofs::BodyVariants::stmt_let, crate::proofs::BodyVariants::stmt_inout, crate::proofs::BodyVariants::stmt_assign, crate::proofs::BodyVariants::stmt_if, crate::proofs::BodyVariants::stmt_while, crate::proofs::BodyVariants::stmt_return, crate::proofs::BodyVariants::stmt_print, crate::proofs::BodyVariants::stmt_task, crate::proofs::BodyVariants::stmt_call, crate::proofs::BodyVariants::stmt_block))]
fn add_stmt<'t>(
    alloc: Global,
    visible: &mut Visible<'t>,
    bodies: &mut Vec<Body<'t>>,
    stmt: &'t Stmt,
) -> Result<(), NoMemory>
    ensures bodies { OnOk result (map spec.body_by bodies.new.items ≡ map spec.body_by bodies.old.items ++ spec.stmt_bodies (map local_by visible.old) (core_stmt stmt.now)) }
    ensures visible { OnOk result (visible.new ≡ visible.old) }
{
    match &stmt.kind {
        StmtKind::Var(_, _, value) => add_value(alloc, visible, bodies, value),
        StmtKind::Let(_, _, value) => add_expr(alloc, visible, bodies, value),
        StmtKind::Inout(_, _, place) => add_steps(alloc, visible, bodies, place.steps.as_slice()),
        StmtKind::Assign(place, value) => {
            add_steps(alloc, visible, bodies, place.steps.as_slice())?;
            add_expr(alloc, visible, bodies, value)
        }
        StmtKind::If(branches, otherwise) => {
            add_tests(alloc, visible, bodies, branches.as_slice())?;
            add_else(alloc, visible, bodies, otherwise)
        }
        StmtKind::While(test, body) => {
            add_expr(alloc, visible, bodies, test)?;
            add_block(alloc, visible, bodies, body)
        }
        StmtKind::Return(value) => add_value(alloc, visible, bodies, value),
        StmtKind::Print(value) => add_expr(alloc, visible, bodies, value),
        StmtKind::Task(_, _, _, budget, call) => {
            add_expr(alloc, visible, bodies, budget)?;
            add_call(alloc, visible, bodies, call)
        }
        StmtKind::Await(_) => Ok(()),
        StmtKind::Call(call) => add_call(alloc, visible, bodies, call),
        StmtKind::Block(block) => add_block(alloc, visible, bodies, block),
    }
}

#[cycle(bodies)]
fn add_value<'t>(
    alloc: Global,
    visible: &Visible<'t>,
    bodies: &mut Vec<Body<'t>>,
    value: &'t Option<Expr>,
) -> Result<(), NoMemory>
    ensures { OnOk result (map spec.body_by bodies.new.items ≡ map spec.body_by bodies.old.items ++ spec.value_bodies (map local_by visible.now) value.now) }
{
    match value {
        None => Ok(()),
        Some(x) => add_expr(alloc, visible, bodies, x),
    }
}

#[cycle(bodies)]
fn add_tests<'t>(
    alloc: Global,
    visible: &mut Visible<'t>,
    bodies: &mut Vec<Body<'t>>,
    branches: &'t [Branch],
) -> Result<(), NoMemory>
    ensures bodies { OnOk result (map spec.body_by bodies.new.items ≡ map spec.body_by bodies.old.items ++ spec.tests_bodies (map local_by visible.old) branches.now) }
    ensures visible { OnOk result (visible.new ≡ visible.old) }
{
    for branch in branches {
        add_expr(alloc, visible, bodies, &branch.test)?;
        add_block(alloc, visible, bodies, &branch.body)?;
    }
    Ok(())
}

#[cycle(bodies)]
fn add_else<'t>(
    alloc: Global,
    visible: &mut Visible<'t>,
    bodies: &mut Vec<Body<'t>>,
    otherwise: &'t Option<Block>,
) -> Result<(), NoMemory>
    ensures bodies { OnOk result (map spec.body_by bodies.new.items ≡ map spec.body_by bodies.old.items ++ spec.else_bodies (map local_by visible.old) otherwise.now) }
    ensures visible { OnOk result (visible.new ≡ visible.old) }
{
    match otherwise {
        None => Ok(()),
        Some(block) => add_block(alloc, visible, bodies, block),
    }
}

fn add_function<'t>(
    alloc: Global,
    bodies: &mut Vec<Body<'t>>,
    function: &'t FunDecl,
) -> Result<(), NoMemory>
    ensures { OnOk result (map spec.body_by bodies.new.items ≡ map spec.body_by bodies.old.items ++ spec.function_bodies function.now) }
{
    let mut visible = push_body(
        alloc,
        bodies,
        Vec::new(alloc),
        function.params.as_slice(),
        &function.result,
        &function.body,
    )?;
    add_block(alloc, &mut visible, bodies, &function.body)
}

#[tactic(auto, using(crate::proofs::DeclBodies::fun_alone, crate::proofs::DeclBodies::struct_alone))]
fn add_decl<'t>(alloc: Global, bodies: &mut Vec<Body<'t>>, decl: &'t Decl) -> Result<(), NoMemory>
    ensures { OnOk result (map spec.body_by bodies.new.items ≡ map spec.body_by bodies.old.items ++ sites.decl_bodies (core_decl decl.now ∷ [])) }
{
    match decl {
        Decl::Struct(_) => Ok(()),
        Decl::Fun(function) => add_function(alloc, bodies, function),
    }
}

fn add_decls<'t>(
    alloc: Global,
    bodies: &mut Vec<Body<'t>>,
    decls: &'t [Decl],
) -> Result<(), NoMemory>
    ensures { OnOk result (map spec.body_by bodies.new.items ≡ map spec.body_by bodies.old.items ++ sites.decl_bodies (map core_decl decls.now)) }
{
    for decl in decls {
        add_decl(alloc, bodies, decl)?;
    }
    Ok(())
}

/// The bodies of a program, in the order of their opening braces.
pub fn bodies_of<'t>(alloc: Global, tree: &'t Tree) -> Result<Vec<Body<'t>>, NoMemory>
    ensures { IfOk result (λ v. map spec.body_by v.items ≡ sites.bodies_of (core_tree tree.now)) }
{
    let mut bodies = Vec::new(alloc);
    add_decls(alloc, &mut bodies, tree.decls.as_slice())?;
    Ok(bodies)
}
