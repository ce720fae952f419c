// Names in bodies. `seen` has the locals that are visible.
ghost use Rattle.std.specs.Prelude.{◌≡◌, ◌++◌, map, length, take, OnOk};
ghost use Rattle.hv_tree.specs.Core.{core_param, core_block};
ghost use Rattle.hv_type_names.specs.Found as spec;
ghost use Rattle.hv_type_names.specs.Parts as parts;

use crate::entry::{enter, look_up, see_bound, walk_header};
use crate::program::Program;
use crate::types::{walk_option_ty, walk_ty};
use hv_symbols::Texts;
use hv_tree::{
    Arg, Block, Branch, Call, Expr, ExprKind, Name, Operator, Param, Place, PlaceExpr, Refusal,
    Step, Stmt, StmtKind,
};
use std::alloc::AllocError as NoMemory;

// A body, whose captures are looked up outside.
#[cycle(parts)]
#[tactic(auto, using(hv_lemmas::proofs::Lists::two))]
pub(crate) fn walk_body<'a>(
    program: &Program<'a>,
    found: &mut Vec<Refusal>,
    captures: &'a [Name],
    params: &'a [Param],
    body: &'a Block,
) -> Result<(), NoMemory>
    ensures { OnOk result (found.new.items ≡ found.old.items ++ spec.body_found program.now captures.now (map core_param params.now) (core_block body.now)) }
{
    let mut seen = enter(program, found, captures, params, body)?;
    walk_block(program, &mut seen, found, body)
}

#[cycle(parts)]
#[tactic(auto, using(crate::proofs::Parts::expr_opened, hv_tree::specs::declared::ast::Arg::TheViews::the_lemmas, hv_lemmas::proofs::Lists::nothing, hv_lemmas::proofs::Lists::two), unfolding(crate::proofs::Parts::expr_by))]
pub(crate) fn walk_expr<'a>(
    program: &Program<'a>,
    seen: &Texts<'a>,
    found: &mut Vec<Refusal>,
    x: &'a Expr,
) -> Result<(), NoMemory>
    ensures { OnOk result (found.new.items ≡ found.old.items ++ parts.expr_found program.now seen.now x.now) }
{
    match &x.kind {
        ExprKind::Int(_) => Ok(()),
        ExprKind::Bool(_) => Ok(()),
        ExprKind::Path(place) => walk_place(program, seen, found, place),
        ExprKind::Call(call) => walk_call(program, seen, found, call),
        ExprKind::Await(handle) => look_up(program, seen, found, handle),
        ExprKind::ArrayLit(elements) => walk_exprs(program, seen, found, elements.as_slice()),
        ExprKind::Filled(len, value) => {
            walk_expr(program, seen, found, len.get())?;
            walk_expr(program, seen, found, value.get())
        }
        ExprKind::Count(place) => walk_place(program, seen, found, place),
        ExprKind::Lambda(captures, params, returned, body) => {
            walk_header(
                program,
                seen,
                found,
                captures.as_slice(),
                params.as_slice(),
                returned,
            )?;
            walk_body(program, found, captures.as_slice(), params.as_slice(), body)
        }
        ExprKind::Prefix(_, operand) => walk_expr(program, seen, found, operand.get()),
        ExprKind::Chain(first, links) => {
            walk_expr(program, seen, found, first.get())?;
            walk_links(program, seen, found, links.as_slice())
        }
    }
}

#[cycle(parts)]
fn walk_exprs<'a>(
    program: &Program<'a>,
    seen: &Texts<'a>,
    found: &mut Vec<Refusal>,
    xs: &'a [Expr],
) -> Result<(), NoMemory>
    ensures { OnOk result (found.new.items ≡ found.old.items ++ parts.exprs_found program.now seen.now xs.now) }
{
    for x in xs {
        walk_expr(program, seen, found, x)?;
    }
    Ok(())
}

#[cycle(parts)]
fn walk_links<'a>(
    program: &Program<'a>,
    seen: &Texts<'a>,
    found: &mut Vec<Refusal>,
    links: &'a [(Operator, Place, Expr)],
) -> Result<(), NoMemory>
    ensures { OnOk result (found.new.items ≡ found.old.items ++ parts.links_found program.now seen.now links.now) }
{
    for (_, _, operand) in links {
        walk_expr(program, seen, found, operand)?;
    }
    Ok(())
}

#[cycle(parts)]
#[tactic(auto, using(crate::proofs::Parts::place_opened, hv_lemmas::proofs::Lists::two))]
fn walk_place<'a>(
    program: &Program<'a>,
    seen: &Texts<'a>,
    found: &mut Vec<Refusal>,
    place: &'a PlaceExpr,
) -> Result<(), NoMemory>
    ensures { OnOk result (found.new.items ≡ found.old.items ++ parts.place_found program.now seen.now place.now) }
{
    look_up(program, seen, found, &place.root)?;
    walk_steps(program, seen, found, place.steps.as_slice())
}

#[cycle(parts)]
fn walk_steps<'a>(
    program: &Program<'a>,
    seen: &Texts<'a>,
    found: &mut Vec<Refusal>,
    steps: &'a [Step],
) -> Result<(), NoMemory>
    ensures { OnOk result (found.new.items ≡ found.old.items ++ parts.steps_found program.now seen.now steps.now) }
{
    for step in steps {
        walk_step(program, seen, found, step)?;
    }
    Ok(())
}

#[cycle(parts)]
#[tactic(auto, using(crate::proofs::Parts::step_opened, hv_tree::specs::declared::ast::Arg::TheViews::the_lemmas, hv_lemmas::proofs::Lists::nothing), unfolding(crate::proofs::Parts::step_by))]
fn walk_step<'a>(
    program: &Program<'a>,
    seen: &Texts<'a>,
    found: &mut Vec<Refusal>,
    step: &'a Step,
) -> Result<(), NoMemory>
    ensures { OnOk result (found.new.items ≡ found.old.items ++ parts.step_found program.now seen.now step.now) }
{
    match step {
        Step::Field(_) => Ok(()),
        Step::Index(_, index) => walk_expr(program, seen, found, index),
    }
}

#[cycle(parts)]
#[tactic(auto, using(crate::proofs::Parts::call_opened, hv_lemmas::proofs::Lists::two))]
fn walk_call<'a>(
    program: &Program<'a>,
    seen: &Texts<'a>,
    found: &mut Vec<Refusal>,
    call: &'a Call,
) -> Result<(), NoMemory>
    ensures { OnOk result (found.new.items ≡ found.old.items ++ parts.call_found program.now seen.now call.now) }
{
    walk_place(program, seen, found, &call.callee)?;
    walk_args(program, seen, found, call.args.as_slice())
}

#[cycle(parts)]
fn walk_args<'a>(
    program: &Program<'a>,
    seen: &Texts<'a>,
    found: &mut Vec<Refusal>,
    args: &'a [Arg],
) -> Result<(), NoMemory>
    ensures { OnOk result (found.new.items ≡ found.old.items ++ parts.args_found program.now seen.now args.now) }
{
    for arg in args {
        walk_arg(program, seen, found, arg)?;
    }
    Ok(())
}

#[cycle(parts)]
#[tactic(auto, using(crate::proofs::Parts::arg_opened, hv_tree::specs::declared::ast::Arg::TheViews::the_lemmas), unfolding(crate::proofs::Parts::arg_by))]
fn walk_arg<'a>(
    program: &Program<'a>,
    seen: &Texts<'a>,
    found: &mut Vec<Refusal>,
    arg: &'a Arg,
) -> Result<(), NoMemory>
    ensures { OnOk result (found.new.items ≡ found.old.items ++ parts.arg_found program.now seen.now arg.now) }
{
    match arg {
        Arg::Value(value) => walk_expr(program, seen, found, value),
        Arg::Ref(_, place) => walk_place(program, seen, found, place),
    }
}

// A block, behind which the same is visible as before it.
#[cycle(parts)]
#[tactic(auto, using(crate::proofs::Parts::block_opened))]
fn walk_block<'a>(
    program: &Program<'a>,
    seen: &mut Texts<'a>,
    found: &mut Vec<Refusal>,
    block: &'a Block,
) -> Result<(), NoMemory>
    ensures found { OnOk result (found.new.items ≡ found.old.items ++ parts.block_found program.now seen.old block.now) }
    ensures seen { OnOk result (seen.new ≡ seen.old) }
{
    let visible = seen.len();
    walk_stmts(program, seen, found, block.stmts.as_slice())?;
    seen.shorten(visible);
    Ok(())
}

#[cycle(parts)]
fn walk_stmts<'a>(
    program: &Program<'a>,
    seen: &mut Texts<'a>,
    found: &mut Vec<Refusal>,
    stmts: &'a [Stmt],
) -> Result<(), NoMemory>
    ensures found { OnOk result (found.new.items ≡ found.old.items ++ parts.stmts_found program.now seen.old stmts.now) }
    ensures seen { OnOk result (take (length seen.old) seen.new ≡ seen.old) }
{
    for stmt in stmts {
        walk_stmt(program, seen, found, stmt)?;
        see_bound(seen, stmt)?;
    }
    Ok(())
}

// A statement; what it declares is not visible yet.
#[cycle(parts)]
#[tactic(auto, using(crate::proofs::Parts::stmt_opened, hv_tree::specs::declared::ast::Arg::TheViews::the_lemmas, hv_lemmas::proofs::Lists::nothing, hv_lemmas::proofs::Lists::two, hv_lemmas::proofs::Lists::three), unfolding(crate::proofs::Parts::stmt_by))]
fn walk_stmt<'a>(
    program: &Program<'a>,
    seen: &mut Texts<'a>,
    found: &mut Vec<Refusal>,
    stmt: &'a Stmt,
) -> Result<(), NoMemory>
    ensures found { OnOk result (found.new.items ≡ found.old.items ++ parts.stmt_found program.now seen.old stmt.now) }
    ensures seen { OnOk result (seen.new ≡ seen.old) }
{
    match &stmt.kind {
        StmtKind::Var(_, ty, value) => {
            walk_ty(program, found, ty)?;
            walk_option_expr(program, seen, found, value)
        }
        StmtKind::Let(_, ty, value) => {
            walk_ty(program, found, ty)?;
            walk_expr(program, seen, found, value)
        }
        StmtKind::Inout(_, ty, place) => {
            walk_ty(program, found, ty)?;
            walk_place(program, seen, found, place)
        }
        StmtKind::Assign(place, value) => {
            walk_place(program, seen, found, place)?;
            walk_expr(program, seen, found, value)
        }
        StmtKind::If(branches, otherwise) => {
            walk_branches(program, seen, found, branches.as_slice())?;
            walk_option_block(program, seen, found, otherwise)
        }
        StmtKind::While(test, body) => {
            walk_expr(program, seen, found, test)?;
            walk_block(program, seen, found, body)
        }
        StmtKind::Return(value) => walk_option_expr(program, seen, found, value),
        StmtKind::Print(value) => walk_expr(program, seen, found, value),
        StmtKind::Task(_, ty, _, budget, call) => {
            walk_option_ty(program, found, ty)?;
            walk_expr(program, seen, found, budget)?;
            walk_call(program, seen, found, call)
        }
        StmtKind::Await(handle) => look_up(program, seen, found, handle),
        StmtKind::Call(call) => walk_call(program, seen, found, call),
        StmtKind::Block(block) => walk_block(program, seen, found, block),
    }
}

#[cycle(parts)]
fn walk_option_expr<'a>(
    program: &Program<'a>,
    seen: &Texts<'a>,
    found: &mut Vec<Refusal>,
    value: &'a Option<Expr>,
) -> Result<(), NoMemory>
    ensures { OnOk result (found.new.items ≡ found.old.items ++ parts.option_expr_found program.now seen.now value.now) }
{
    match value {
        Some(x) => walk_expr(program, seen, found, x),
        None => Ok(()),
    }
}

#[cycle(parts)]
fn walk_branches<'a>(
    program: &Program<'a>,
    seen: &mut Texts<'a>,
    found: &mut Vec<Refusal>,
    branches: &'a [Branch],
) -> Result<(), NoMemory>
    ensures found { OnOk result (found.new.items ≡ found.old.items ++ parts.branches_found program.now seen.old branches.now) }
    ensures seen { OnOk result (seen.new ≡ seen.old) }
{
    for branch in branches {
        walk_branch(program, seen, found, branch)?;
    }
    Ok(())
}

#[cycle(parts)]
#[tactic(auto, using(hv_lemmas::proofs::Lists::two))]
fn walk_branch<'a>(
    program: &Program<'a>,
    seen: &mut Texts<'a>,
    found: &mut Vec<Refusal>,
    branch: &'a Branch,
) -> Result<(), NoMemory>
    ensures found { OnOk result (found.new.items ≡ found.old.items ++ parts.branch_found program.now seen.old branch.now) }
    ensures seen { OnOk result (seen.new ≡ seen.old) }
{
    walk_expr(program, seen, found, &branch.test)?;
    walk_block(program, seen, found, &branch.body)
}

#[cycle(parts)]
fn walk_option_block<'a>(
    program: &Program<'a>,
    seen: &mut Texts<'a>,
    found: &mut Vec<Refusal>,
    block: &'a Option<Block>,
) -> Result<(), NoMemory>
    ensures found { OnOk result (found.new.items ≡ found.old.items ++ parts.option_block_found program.now seen.old block.now) }
    ensures seen { OnOk result (seen.new ≡ seen.old) }
{
    match block {
        Some(block) => walk_block(program, seen, found, block),
        None => Ok(()),
    }
}
