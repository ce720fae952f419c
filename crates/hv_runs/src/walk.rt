// Parts of bodies.
ghost use Rattle.std.specs.Prelude.{◌≡◌, map};
ghost use Rattle.hv_tree.specs.Core.{core_param, core_block, core_option_ty};
ghost use Rattle.hv_runs.specs.Walked as spec;
ghost use Rattle.hv_runs.specs.Parts as parts;

use crate::ends::header_runs;
use crate::types::ty_reads;
use hv_tree::{
    Arg, Block, Branch, Call, Expr, ExprKind, Operator, Param, Place, PlaceExpr, Step, Stmt,
    StmtKind, Ty,
};

#[cycle(parts)]
#[tactic(auto, using(crate::proofs::Parts::expr_opened, hv_tree::specs::declared::ast::Arg::TheViews::the_lemmas), unfolding(crate::proofs::Parts::expr_by))]
fn expr_runs(x: &Expr) -> bool
    ensures { result ≡ parts.expr_runs x.now }
{
    match &x.kind {
        ExprKind::Int(_) => true,
        ExprKind::Bool(_) => true,
        ExprKind::Path(place) => place_runs(place),
        ExprKind::Call(call) => call_runs(call),
        ExprKind::Await(_) => false,
        ExprKind::ArrayLit(elements) => exprs_run(elements.as_slice()),
        ExprKind::Filled(len, value) => expr_runs(len.get()) && expr_runs(value.get()),
        ExprKind::Count(place) => place_runs(place),
        ExprKind::Lambda(_, params, returned, body) => body_runs(params.as_slice(), returned, body),
        ExprKind::Prefix(_, operand) => expr_runs(operand.get()),
        ExprKind::Chain(first, links) => expr_runs(first.get()) && links_run(links.as_slice()),
    }
}

#[cycle(parts)]
pub(crate) fn body_runs(params: &[Param], returned: &Option<Ty>, body: &Block) -> bool
    ensures { result ≡ spec.body_runs (map core_param params.now) (core_option_ty returned.now) (core_block body.now) }
{
    header_runs(params, returned, body) && block_runs(body)
}

#[cycle(parts)]
fn exprs_run(xs: &[Expr]) -> bool
    ensures { result ≡ parts.exprs_run xs.now }
{
    for x in xs {
        if !expr_runs(x) {
            return false;
        }
    }
    true
}

#[cycle(parts)]
fn links_run(links: &[(Operator, Place, Expr)]) -> bool
    ensures { result ≡ parts.links_run links.now }
{
    for (_, _, operand) in links {
        if !expr_runs(operand) {
            return false;
        }
    }
    true
}

#[cycle(parts)]
#[tactic(auto, using(crate::proofs::Parts::place_opened))]
fn place_runs(place: &PlaceExpr) -> bool
    ensures { result ≡ parts.place_runs place.now }
{
    steps_run(place.steps.as_slice())
}

#[cycle(parts)]
fn steps_run(steps: &[Step]) -> bool
    ensures { result ≡ parts.steps_run steps.now }
{
    for step in steps {
        if !step_runs(step) {
            return false;
        }
    }
    true
}

#[cycle(parts)]
#[tactic(auto, using(crate::proofs::Parts::step_opened, hv_tree::specs::declared::ast::Arg::TheViews::the_lemmas), unfolding(crate::proofs::Parts::step_by))]
fn step_runs(step: &Step) -> bool
    ensures { result ≡ parts.step_runs step.now }
{
    match step {
        Step::Field(_) => true,
        Step::Index(_, index) => expr_runs(index),
    }
}

#[cycle(parts)]
#[tactic(auto, using(crate::proofs::Parts::call_opened))]
fn call_runs(call: &Call) -> bool
    ensures { result ≡ parts.call_runs call.now }
{
    place_runs(&call.callee) && args_run(call.args.as_slice())
}

#[cycle(parts)]
fn args_run(args: &[Arg]) -> bool
    ensures { result ≡ parts.args_run args.now }
{
    for arg in args {
        if !arg_runs(arg) {
            return false;
        }
    }
    true
}

#[cycle(parts)]
#[tactic(auto, using(crate::proofs::Parts::arg_opened, hv_tree::specs::declared::ast::Arg::TheViews::the_lemmas), unfolding(crate::proofs::Parts::arg_by))]
fn arg_runs(arg: &Arg) -> bool
    ensures { result ≡ parts.arg_runs arg.now }
{
    match arg {
        Arg::Value(value) => expr_runs(value),
        Arg::Ref(_, place) => place_runs(place),
    }
}

#[cycle(parts)]
#[tactic(auto, using(crate::proofs::Parts::block_opened))]
fn block_runs(block: &Block) -> bool
    ensures { result ≡ parts.block_runs block.now }
{
    stmts_run(block.stmts.as_slice())
}

#[cycle(parts)]
fn stmts_run(stmts: &[Stmt]) -> bool
    ensures { result ≡ parts.stmts_run stmts.now }
{
    for stmt in stmts {
        if !stmt_runs(stmt) {
            return false;
        }
    }
    true
}

#[cycle(parts)]
#[tactic(auto, using(crate::proofs::Parts::stmt_opened, hv_tree::specs::declared::ast::Arg::TheViews::the_lemmas), unfolding(crate::proofs::Parts::stmt_by))]
fn stmt_runs(stmt: &Stmt) -> bool
    ensures { result ≡ parts.stmt_runs stmt.now }
{
    match &stmt.kind {
        StmtKind::Var(_, ty, value) => ty_reads(ty) && value_runs(value),
        StmtKind::Let(_, ty, value) => ty_reads(ty) && expr_runs(value),
        StmtKind::Inout(_, _, _) => false,
        StmtKind::Assign(place, value) => place_runs(place) && expr_runs(value),
        StmtKind::If(branches, otherwise) => {
            branches_run(branches.as_slice()) && option_block_runs(otherwise)
        }
        StmtKind::While(test, body) => expr_runs(test) && block_runs(body),
        StmtKind::Return(value) => option_expr_runs(value),
        StmtKind::Print(value) => expr_runs(value),
        StmtKind::Task(_, _, _, _, _) => false,
        StmtKind::Await(_) => false,
        StmtKind::Call(call) => call_runs(call),
        StmtKind::Block(block) => block_runs(block),
    }
}

// The value of a `var`, which has to have one.
#[cycle(parts)]
fn value_runs(value: &Option<Expr>) -> bool
    ensures { result ≡ parts.value_runs value.now }
{
    match value {
        Some(x) => expr_runs(x),
        None => false,
    }
}

#[cycle(parts)]
fn option_expr_runs(value: &Option<Expr>) -> bool
    ensures { result ≡ parts.option_expr_runs value.now }
{
    match value {
        Some(x) => expr_runs(x),
        None => true,
    }
}

#[cycle(parts)]
fn branches_run(branches: &[Branch]) -> bool
    ensures { result ≡ parts.branches_run branches.now }
{
    for branch in branches {
        if !branch_runs(branch) {
            return false;
        }
    }
    true
}

#[cycle(parts)]
fn branch_runs(branch: &Branch) -> bool
    ensures { result ≡ parts.branch_runs branch.now }
{
    expr_runs(&branch.test) && block_runs(&branch.body)
}

#[cycle(parts)]
fn option_block_runs(block: &Option<Block>) -> bool
    ensures { result ≡ parts.option_block_runs block.now }
{
    match block {
        Some(block) => block_runs(block),
        None => true,
    }
}
