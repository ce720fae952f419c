// Each part of a body where it stands. `visible` has the locals that are visible there.
ghost use Rattle.std.specs.Prelude.{◌≡◌, ◌++◌, length, OnOk};
ghost use Rattle.hv_scope.specs.Oldest.{oldest};
ghost use Rattle.hv_types.specs.Walked as walked;

use crate::here::{Program, call_here, expr_here, place_here, stmt_here, test_here};
use hv_scope::{Visible, captures_of, push_bound, visible_first};
use hv_tree::{
    Arg, Block, Branch, Call, Expr, ExprKind, Name, Operator, Param, Place, PlaceExpr, Refusal,
    Step, Stmt, StmtKind, Ty,
};
use std::alloc::AllocError as NoMemory;

#[cycle(parts)]
#[tactic(auto, using(crate::proofs::Walks::expr_split, hv_lemmas::proofs::Lists::two))]
fn walk_expr<'t>(
    program: &Program<'_, 't>,
    visible: &Visible<'t>,
    returned: &'t Option<Ty>,
    found: &mut Vec<Refusal>,
    x: &'t Expr,
) -> Result<(), NoMemory>
    ensures { OnOk result (found.new.items ≡ found.old.items ++ walked.expr_walked program.now visible.now returned.now x.now) }
{
    expr_here(program, visible, returned, found, x)?;
    walk_inside(program, visible, returned, found, x)
}

// The parts of an expression.
#[cycle(parts)]
#[tactic(auto, using(crate::proofs::Walks::inside_opened, hv_tree::specs::declared::ast::Arg::TheViews::the_lemmas, hv_lemmas::proofs::Lists::nothing, hv_lemmas::proofs::Lists::two), unfolding(crate::proofs::Walks::inside_by))]
fn walk_inside<'t>(
    program: &Program<'_, 't>,
    visible: &Visible<'t>,
    returned: &'t Option<Ty>,
    found: &mut Vec<Refusal>,
    x: &'t Expr,
) -> Result<(), NoMemory>
    ensures { OnOk result (found.new.items ≡ found.old.items ++ walked.inside_walked program.now visible.now returned.now x.now) }
{
    match &x.kind {
        ExprKind::Int(_) => Ok(()),
        ExprKind::Bool(_) => Ok(()),
        ExprKind::Path(place) => walk_place(program, visible, returned, found, place),
        ExprKind::Call(call) => walk_call(program, visible, returned, found, call),
        ExprKind::Await(_) => Ok(()),
        ExprKind::ArrayLit(elements) => {
            walk_exprs(program, visible, returned, found, elements.as_slice())
        }
        ExprKind::Filled(len, value) => {
            walk_expr(program, visible, returned, found, len.get())?;
            walk_expr(program, visible, returned, found, value.get())
        }
        ExprKind::Count(place) => walk_place(program, visible, returned, found, place),
        ExprKind::Lambda(captures, params, result, body) => walk_lambda(
            program,
            visible,
            result,
            found,
            captures.as_slice(),
            params.as_slice(),
            body,
        ),
        ExprKind::Prefix(_, operand) => {
            walk_expr(program, visible, returned, found, operand.get())
        }
        ExprKind::Chain(first, links) => {
            walk_expr(program, visible, returned, found, first.get())?;
            walk_links(program, visible, returned, found, links.as_slice())
        }
    }
}

// The body of a lambda.
#[cycle(parts)]
#[tactic(auto, using(crate::proofs::Walks::lambda_inside))]
fn walk_lambda<'t>(
    program: &Program<'_, 't>,
    visible: &Visible<'t>,
    given: &'t Option<Ty>,
    found: &mut Vec<Refusal>,
    captures: &'t [Name],
    params: &'t [Param],
    body: &'t Block,
) -> Result<(), NoMemory>
    ensures { OnOk result (found.new.items ≡ found.old.items ++ walked.lambda_walked program.now visible.now captures.now params.now given.now body.now) }
{
    let captured = captures_of(program.alloc, visible, captures)?;
    let mut inner = visible_first(program.alloc, captured.as_slice(), params)?;
    walk_block(program, &mut inner, given, found, body)
}

#[cycle(parts)]
fn walk_exprs<'t>(
    program: &Program<'_, 't>,
    visible: &Visible<'t>,
    returned: &'t Option<Ty>,
    found: &mut Vec<Refusal>,
    xs: &'t [Expr],
) -> Result<(), NoMemory>
    ensures { OnOk result (found.new.items ≡ found.old.items ++ walked.exprs_walked program.now visible.now returned.now xs.now) }
{
    for x in xs {
        walk_expr(program, visible, returned, found, x)?;
    }
    Ok(())
}

#[cycle(parts)]
fn walk_links<'t>(
    program: &Program<'_, 't>,
    visible: &Visible<'t>,
    returned: &'t Option<Ty>,
    found: &mut Vec<Refusal>,
    links: &'t [(Operator, Place, Expr)],
) -> Result<(), NoMemory>
    ensures { OnOk result (found.new.items ≡ found.old.items ++ walked.links_walked program.now visible.now returned.now links.now) }
{
    for (_, _, operand) in links {
        walk_expr(program, visible, returned, found, operand)?;
    }
    Ok(())
}

#[cycle(parts)]
#[tactic(auto, using(crate::proofs::Walks::place_split, hv_lemmas::proofs::Lists::two))]
fn walk_place<'t>(
    program: &Program<'_, 't>,
    visible: &Visible<'t>,
    returned: &'t Option<Ty>,
    found: &mut Vec<Refusal>,
    place: &'t PlaceExpr,
) -> Result<(), NoMemory>
    ensures { OnOk result (found.new.items ≡ found.old.items ++ walked.place_walked program.now visible.now returned.now place.now) }
{
    place_here(program, visible, returned, found, place)?;
    walk_steps(program, visible, returned, found, place.steps.as_slice())
}

#[cycle(parts)]
fn walk_steps<'t>(
    program: &Program<'_, 't>,
    visible: &Visible<'t>,
    returned: &'t Option<Ty>,
    found: &mut Vec<Refusal>,
    steps: &'t [Step],
) -> Result<(), NoMemory>
    ensures { OnOk result (found.new.items ≡ found.old.items ++ walked.steps_walked program.now visible.now returned.now steps.now) }
{
    for step in steps {
        walk_step(program, visible, returned, found, step)?;
    }
    Ok(())
}

#[cycle(parts)]
#[tactic(auto, using(crate::proofs::Walks::step_opened, hv_tree::specs::declared::ast::Arg::TheViews::the_lemmas, hv_lemmas::proofs::Lists::nothing), unfolding(crate::proofs::Walks::step_by))]
fn walk_step<'t>(
    program: &Program<'_, 't>,
    visible: &Visible<'t>,
    returned: &'t Option<Ty>,
    found: &mut Vec<Refusal>,
    step: &'t Step,
) -> Result<(), NoMemory>
    ensures { OnOk result (found.new.items ≡ found.old.items ++ walked.step_walked program.now visible.now returned.now step.now) }
{
    match step {
        Step::Field(_) => Ok(()),
        Step::Index(_, index) => walk_expr(program, visible, returned, found, index),
    }
}

#[cycle(parts)]
#[tactic(auto, using(crate::proofs::Walks::call_split, hv_lemmas::proofs::Lists::three))]
fn walk_call<'t>(
    program: &Program<'_, 't>,
    visible: &Visible<'t>,
    returned: &'t Option<Ty>,
    found: &mut Vec<Refusal>,
    call: &'t Call,
) -> Result<(), NoMemory>
    ensures { OnOk result (found.new.items ≡ found.old.items ++ walked.call_walked program.now visible.now returned.now call.now) }
{
    call_here(program, visible, returned, found, call)?;
    walk_place(program, visible, returned, found, &call.callee)?;
    walk_args(program, visible, returned, found, call.args.as_slice())
}

#[cycle(parts)]
fn walk_args<'t>(
    program: &Program<'_, 't>,
    visible: &Visible<'t>,
    returned: &'t Option<Ty>,
    found: &mut Vec<Refusal>,
    args: &'t [Arg],
) -> Result<(), NoMemory>
    ensures { OnOk result (found.new.items ≡ found.old.items ++ walked.args_walked program.now visible.now returned.now args.now) }
{
    for arg in args {
        walk_arg(program, visible, returned, found, arg)?;
    }
    Ok(())
}

#[cycle(parts)]
#[tactic(auto, using(crate::proofs::Walks::arg_opened, hv_tree::specs::declared::ast::Arg::TheViews::the_lemmas), unfolding(crate::proofs::Walks::arg_by))]
fn walk_arg<'t>(
    program: &Program<'_, 't>,
    visible: &Visible<'t>,
    returned: &'t Option<Ty>,
    found: &mut Vec<Refusal>,
    arg: &'t Arg,
) -> Result<(), NoMemory>
    ensures { OnOk result (found.new.items ≡ found.old.items ++ walked.arg_walked program.now visible.now returned.now arg.now) }
{
    match arg {
        Arg::Value(value) => walk_expr(program, visible, returned, found, value),
        Arg::Ref(_, place) => walk_place(program, visible, returned, found, place),
    }
}

// A block, behind which the same is visible as before it.
#[cycle(parts)]
#[tactic(auto, using(crate::proofs::Walks::block_opened))]
pub(crate) fn walk_block<'t>(
    program: &Program<'_, 't>,
    visible: &mut Visible<'t>,
    returned: &'t Option<Ty>,
    found: &mut Vec<Refusal>,
    block: &'t Block,
) -> Result<(), NoMemory>
    ensures found { OnOk result (found.new.items ≡ found.old.items ++ walked.block_walked program.now visible.old returned.now block.now) }
    ensures visible { OnOk result (visible.new ≡ visible.old) }
{
    let seen = visible.len();
    walk_stmts(program, visible, returned, found, block.stmts.as_slice())?;
    visible.shorten(seen);
    Ok(())
}

#[cycle(parts)]
fn walk_stmts<'t>(
    program: &Program<'_, 't>,
    visible: &mut Visible<'t>,
    returned: &'t Option<Ty>,
    found: &mut Vec<Refusal>,
    stmts: &'t [Stmt],
) -> Result<(), NoMemory>
    ensures found { OnOk result (found.new.items ≡ found.old.items ++ walked.stmts_walked program.now visible.old returned.now stmts.now) }
    ensures visible { OnOk result (oldest (length visible.old) visible.new ≡ visible.old) }
{
    for stmt in stmts {
        walk_stmt(program, visible, returned, found, stmt)?;
        push_bound(visible, stmt)?;
    }
    Ok(())
}

// A statement; what it declares is not visible yet.
#[cycle(parts)]
#[tactic(auto, using(crate::proofs::Walks::stmt_split, hv_lemmas::proofs::Lists::two))]
fn walk_stmt<'t>(
    program: &Program<'_, 't>,
    visible: &mut Visible<'t>,
    returned: &'t Option<Ty>,
    found: &mut Vec<Refusal>,
    stmt: &'t Stmt,
) -> Result<(), NoMemory>
    ensures found { OnOk result (found.new.items ≡ found.old.items ++ walked.stmt_walked program.now visible.old returned.now stmt.now) }
    ensures visible { OnOk result (visible.new ≡ visible.old) }
{
    stmt_here(program, visible, returned, found, stmt)?;
    walk_within(program, visible, returned, found, stmt)
}

// The parts of a statement.
#[cycle(parts)]
#[tactic(auto, using(crate::proofs::Walks::within_opened, hv_tree::specs::declared::ast::Arg::TheViews::the_lemmas, hv_lemmas::proofs::Lists::nothing, hv_lemmas::proofs::Lists::two), unfolding(crate::proofs::Walks::within_by))]
fn walk_within<'t>(
    program: &Program<'_, 't>,
    visible: &mut Visible<'t>,
    returned: &'t Option<Ty>,
    found: &mut Vec<Refusal>,
    stmt: &'t Stmt,
) -> Result<(), NoMemory>
    ensures found { OnOk result (found.new.items ≡ found.old.items ++ walked.within_walked program.now visible.old returned.now stmt.now) }
    ensures visible { OnOk result (visible.new ≡ visible.old) }
{
    match &stmt.kind {
        StmtKind::Var(_, _, value) => walk_option_expr(program, visible, returned, found, value),
        StmtKind::Let(_, _, value) => walk_expr(program, visible, returned, found, value),
        StmtKind::Inout(_, _, place) => walk_place(program, visible, returned, found, place),
        StmtKind::Assign(place, value) => {
            walk_place(program, visible, returned, found, place)?;
            walk_expr(program, visible, returned, found, value)
        }
        StmtKind::If(branches, otherwise) => {
            walk_branches(program, visible, returned, found, branches.as_slice())?;
            walk_option_block(program, visible, returned, found, otherwise)
        }
        StmtKind::While(test, body) => {
            walk_test(program, visible, returned, found, test)?;
            walk_block(program, visible, returned, found, body)
        }
        StmtKind::Return(value) => walk_option_expr(program, visible, returned, found, value),
        StmtKind::Print(value) => walk_expr(program, visible, returned, found, value),
        StmtKind::Task(_, _, _, budget, call) => {
            walk_expr(program, visible, returned, found, budget)?;
            walk_call(program, visible, returned, found, call)
        }
        StmtKind::Await(_) => Ok(()),
        StmtKind::Call(call) => walk_call(program, visible, returned, found, call),
        StmtKind::Block(block) => walk_block(program, visible, returned, found, block),
    }
}

#[cycle(parts)]
fn walk_option_expr<'t>(
    program: &Program<'_, 't>,
    visible: &Visible<'t>,
    returned: &'t Option<Ty>,
    found: &mut Vec<Refusal>,
    value: &'t Option<Expr>,
) -> Result<(), NoMemory>
    ensures { OnOk result (found.new.items ≡ found.old.items ++ walked.option_expr_walked program.now visible.now returned.now value.now) }
{
    match value {
        Some(x) => walk_expr(program, visible, returned, found, x),
        None => Ok(()),
    }
}

#[cycle(parts)]
#[tactic(auto, using(hv_lemmas::proofs::Lists::two))]
fn walk_test<'t>(
    program: &Program<'_, 't>,
    visible: &Visible<'t>,
    returned: &'t Option<Ty>,
    found: &mut Vec<Refusal>,
    test: &'t Expr,
) -> Result<(), NoMemory>
    ensures { OnOk result (found.new.items ≡ found.old.items ++ walked.test_walked program.now visible.now returned.now test.now) }
{
    test_here(program, visible, returned, found, test)?;
    walk_expr(program, visible, returned, found, test)
}

#[cycle(parts)]
fn walk_branches<'t>(
    program: &Program<'_, 't>,
    visible: &mut Visible<'t>,
    returned: &'t Option<Ty>,
    found: &mut Vec<Refusal>,
    branches: &'t [Branch],
) -> Result<(), NoMemory>
    ensures found { OnOk result (found.new.items ≡ found.old.items ++ walked.branches_walked program.now visible.old returned.now branches.now) }
    ensures visible { OnOk result (visible.new ≡ visible.old) }
{
    for branch in branches {
        walk_branch(program, visible, returned, found, branch)?;
    }
    Ok(())
}

#[cycle(parts)]
#[tactic(auto, using(hv_lemmas::proofs::Lists::two))]
fn walk_branch<'t>(
    program: &Program<'_, 't>,
    visible: &mut Visible<'t>,
    returned: &'t Option<Ty>,
    found: &mut Vec<Refusal>,
    branch: &'t Branch,
) -> Result<(), NoMemory>
    ensures found { OnOk result (found.new.items ≡ found.old.items ++ walked.branch_walked program.now visible.old returned.now branch.now) }
    ensures visible { OnOk result (visible.new ≡ visible.old) }
{
    walk_test(program, visible, returned, found, &branch.test)?;
    walk_block(program, visible, returned, found, &branch.body)
}

#[cycle(parts)]
fn walk_option_block<'t>(
    program: &Program<'_, 't>,
    visible: &mut Visible<'t>,
    returned: &'t Option<Ty>,
    found: &mut Vec<Refusal>,
    block: &'t Option<Block>,
) -> Result<(), NoMemory>
    ensures found { OnOk result (found.new.items ≡ found.old.items ++ walked.option_block_walked program.now visible.old returned.now block.now) }
    ensures visible { OnOk result (visible.new ≡ visible.old) }
{
    match block {
        Some(block) => walk_block(program, visible, returned, found, block),
        None => Ok(()),
    }
}
