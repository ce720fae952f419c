// Expressions and statements. `depth` is that of the line on which the part begins.
ghost use Rattle.std.specs.Prelude.{◌≡◌, ◌++◌, [], codes, OnOk, string_bytes};
ghost use Rattle.hv_tree.specs.Printed.{indent, truth_text};
ghost use Rattle.hv_tree.specs.Printed as printed;
ghost use Rattle.hv_print.specs.Texts as texts;

use crate::operators::{PREFIXED, is_grouped, links_tightness, operator_text};
use crate::types::{COMMA, push_handle_ty, push_name, push_names, push_signature, push_typed};
use hv_items::Items;
use hv_tree::{
    Arg, Block, Branch, Call, Expr, ExprKind, Name, Operator, Param, Place, PlaceExpr, Step, Stmt,
    StmtKind, Ty,
};
use std::alloc::AllocError as NoMemory;

fn truth_text(value: bool) -> &'static str
    ensures { result.now ≡ truth_text value }
{
    if value { "true" } else { "false" }
}

#[tactic(auto, using(crate::proofs::Parts::indent_more))]
fn push_indent(out: &mut String, depth: usize) -> Result<(), NoMemory>
    ensures { OnOk result (string_bytes out.new ≡ string_bytes out.old ++ indent depth) }
{
    let mut left = depth;
    while left > 0 {
        out.push_str("  ")?;
        left -= 1;
    }
    Ok(())
}

fn push_await(out: &mut String, handle: &Name) -> Result<(), NoMemory>
    ensures { OnOk result (string_bytes out.new ≡ string_bytes out.old ++ (codes "await " ++ handle.now.text)) }
{
    out.push_str("await ")?;
    push_name(out, handle)
}

#[cycle(parts)]
#[tactic(auto, using(crate::proofs::Parts::expr_int, crate::proofs::Parts::expr_bool, crate::proofs::Parts::expr_path, crate::proofs::Parts::expr_call, crate::proofs::Parts::expr_await, crate::proofs::Parts::expr_array_lit, crate::proofs::Parts::expr_lambda))]
fn push_expr(out: &mut String, depth: usize, x: &Expr) -> Result<(), NoMemory>
    ensures { OnOk result (string_bytes out.new ≡ string_bytes out.old ++ texts.expr_text depth x.now) }
{
    match &x.kind {
        ExprKind::Int(value) => write!(out, "{value}"),
        ExprKind::Bool(value) => out.push_str(truth_text(*value)),
        ExprKind::Path(path) => push_place(out, depth, path),
        ExprKind::Call(call) => push_call(out, depth, call),
        ExprKind::Await(handle) => push_await(out, handle),
        ExprKind::ArrayLit(elements) => push_array(out, depth, elements.as_slice()),
        ExprKind::Filled(len, value) => {
            out.push_str("filled(")?;
            push_expr(out, depth, len.get())?;
            out.push_str(COMMA)?;
            push_expr(out, depth, value.get())?;
            out.push_str(")")
        }
        ExprKind::Count(path) => {
            out.push_str("count(")?;
            push_place(out, depth, path)?;
            out.push_str(")")
        }
        ExprKind::Lambda(captures, params, returned, body) => {
            push_lambda(out, depth, body, captures, params, returned)
        }
        ExprKind::Prefix(operator, operand) => {
            out.push_str(operator_text(*operator))?;
            push_operand(out, depth, PREFIXED, operand.get())
        }
        ExprKind::Chain(first, links) => {
            let outer = links_tightness(links.as_slice());
            push_operand(out, depth, outer, first.get())?;
            push_links(out, depth, outer, links.as_slice())
        }
    }
}

#[cycle(parts)]
fn push_lambda(
    out: &mut String,
    depth: usize,
    body: &Block,
    captures: &Items<Name>,
    params: &Items<Param>,
    returned: &Option<Ty>,
) -> Result<(), NoMemory>
    ensures { OnOk result (string_bytes out.new ≡ string_bytes out.old ++ texts.lambda_text depth captures.now params.now returned.now body.now) }
{
    out.push_str("fun [")?;
    push_names(out, captures.as_slice())?;
    out.push_str("] ")?;
    push_signature(out, params.as_slice(), returned)?;
    push_block(out, depth, body)
}

// An operand of an operator that binds as tightly as `outer` says.
#[cycle(parts)]
fn push_operand(out: &mut String, depth: usize, outer: u32, x: &Expr) -> Result<(), NoMemory>
    ensures { OnOk result (string_bytes out.new ≡ string_bytes out.old ++ texts.operand_text depth outer x.now) }
{
    if is_grouped(outer, x) {
        out.push_str("(")?;
        push_expr(out, depth, x)?;
        out.push_str(")")
    } else {
        push_expr(out, depth, x)
    }
}

#[cycle(parts)]
fn push_links(
    out: &mut String,
    depth: usize,
    outer: u32,
    links: &[(Operator, Place, Expr)],
) -> Result<(), NoMemory>
    ensures { OnOk result (string_bytes out.new ≡ string_bytes out.old ++ texts.links_text depth outer links.now) }
{
    for (operator, _, operand) in links {
        out.push_str(" ")?;
        out.push_str(operator_text(*operator))?;
        out.push_str(" ")?;
        push_operand(out, depth, outer, operand)?;
    }
    Ok(())
}

#[cycle(parts)]
fn push_array(out: &mut String, depth: usize, elements: &[Expr]) -> Result<(), NoMemory>
    ensures { OnOk result (string_bytes out.new ≡ string_bytes out.old ++ texts.array_text depth elements.now) }
{
    out.push_str("[")?;
    push_exprs(out, depth, elements)?;
    out.push_str("]")
}

#[cycle(parts)]
fn push_exprs(out: &mut String, depth: usize, xs: &[Expr]) -> Result<(), NoMemory>
    ensures { OnOk result (string_bytes out.new ≡ string_bytes out.old ++ texts.exprs_text depth [] xs.now) }
{
    let mut before = "";
    for x in xs {
        out.push_str(before)?;
        push_expr(out, depth, x)?;
        before = COMMA;
    }
    Ok(())
}

#[cycle(parts)]
fn push_place(out: &mut String, depth: usize, place: &PlaceExpr) -> Result<(), NoMemory>
    ensures { OnOk result (string_bytes out.new ≡ string_bytes out.old ++ texts.place_text depth place.now) }
{
    push_name(out, &place.root)?;
    push_steps(out, depth, place.steps.as_slice())
}

#[cycle(parts)]
fn push_steps(out: &mut String, depth: usize, steps: &[Step]) -> Result<(), NoMemory>
    ensures { OnOk result (string_bytes out.new ≡ string_bytes out.old ++ texts.steps_text depth steps.now) }
{
    for step in steps {
        push_step(out, depth, step)?;
    }
    Ok(())
}

#[cycle(parts)]
fn push_step(out: &mut String, depth: usize, step: &Step) -> Result<(), NoMemory>
    ensures { OnOk result (string_bytes out.new ≡ string_bytes out.old ++ texts.step_text depth step.now) }
{
    match step {
        Step::Field(name) => {
            out.push_str(".")?;
            push_name(out, name)
        }
        Step::Index(_, index) => {
            out.push_str("[")?;
            push_expr(out, depth, index)?;
            out.push_str("]")
        }
    }
}

#[cycle(parts)]
fn push_call(out: &mut String, depth: usize, call: &Call) -> Result<(), NoMemory>
    ensures { OnOk result (string_bytes out.new ≡ string_bytes out.old ++ texts.call_text depth call.now) }
{
    push_place(out, depth, &call.callee)?;
    out.push_str("(")?;
    push_args(out, depth, call.args.as_slice())?;
    out.push_str(")")
}

#[cycle(parts)]
fn push_args(out: &mut String, depth: usize, args: &[Arg]) -> Result<(), NoMemory>
    ensures { OnOk result (string_bytes out.new ≡ string_bytes out.old ++ texts.args_text depth [] args.now) }
{
    let mut before = "";
    for arg in args {
        out.push_str(before)?;
        push_arg(out, depth, arg)?;
        before = COMMA;
    }
    Ok(())
}

#[cycle(parts)]
#[tactic(auto, using(crate::proofs::Parts::arg_value))]
fn push_arg(out: &mut String, depth: usize, arg: &Arg) -> Result<(), NoMemory>
    ensures { OnOk result (string_bytes out.new ≡ string_bytes out.old ++ texts.arg_text depth arg.now) }
{
    match arg {
        Arg::Value(value) => push_expr(out, depth, value),
        Arg::Ref(_, place) => {
            out.push_str("&")?;
            push_place(out, depth, place)
        }
    }
}

// A block behind what stands before it in its line.
#[cycle(parts)]
pub(crate) fn push_block(out: &mut String, depth: usize, block: &Block) -> Result<(), NoMemory>
    ensures { OnOk result (string_bytes out.new ≡ string_bytes out.old ++ texts.block_text depth block.now) }
{
    out.push_str(" ")?;
    push_bare(out, depth, block)
}

#[cycle(parts)]
fn push_bare(out: &mut String, depth: usize, block: &Block) -> Result<(), NoMemory>
    ensures { OnOk result (string_bytes out.new ≡ string_bytes out.old ++ texts.bare_text depth block.now) }
{
    let inner = depth.checked_add(1).ok_or(NoMemory)?;
    out.push_str("{\n")?;
    push_stmts(out, inner, block.stmts.as_slice())?;
    push_indent(out, depth)?;
    out.push_str("}")
}

#[cycle(parts)]
fn push_stmts(out: &mut String, depth: usize, stmts: &[Stmt]) -> Result<(), NoMemory>
    ensures { OnOk result (string_bytes out.new ≡ string_bytes out.old ++ texts.stmts_text depth stmts.now) }
{
    for stmt in stmts {
        push_indent(out, depth)?;
        push_stmt(out, depth, stmt)?;
        out.push_str("\n")?;
    }
    Ok(())
}

#[cycle(parts)]
#[tactic(auto, using(crate::proofs::Parts::stmt_var, crate::proofs::Parts::stmt_let, crate::proofs::Parts::stmt_inout, crate::proofs::Parts::stmt_return, crate::proofs::Parts::stmt_print, crate::proofs::Parts::stmt_await, crate::proofs::Parts::stmt_call, crate::proofs::Parts::stmt_block))]
fn push_stmt(out: &mut String, depth: usize, stmt: &Stmt) -> Result<(), NoMemory>
    ensures { OnOk result (string_bytes out.new ≡ string_bytes out.old ++ texts.stmt_text depth stmt.now) }
{
    match &stmt.kind {
        StmtKind::Var(name, ty, value) => push_var(out, depth, value, name, ty),
        StmtKind::Let(name, ty, value) => push_let(out, depth, value, name, ty),
        StmtKind::Inout(name, ty, place) => push_inout(out, depth, place, name, ty),
        StmtKind::Assign(place, value) => {
            out.push_str("&")?;
            push_place(out, depth, place)?;
            out.push_str(" = ")?;
            push_expr(out, depth, value)
        }
        StmtKind::If(branches, otherwise) => {
            push_branches(out, depth, branches.as_slice())?;
            push_else(out, depth, otherwise)
        }
        StmtKind::While(test, body) => {
            out.push_str("while ")?;
            push_expr(out, depth, test)?;
            push_block(out, depth, body)
        }
        StmtKind::Return(value) => push_return_stmt(out, depth, value),
        StmtKind::Print(value) => push_print(out, depth, value),
        StmtKind::Task(handle, ty, _, budget, call) => {
            out.push_str("task ")?;
            push_name(out, handle)?;
            push_handle_ty(out, ty)?;
            out.push_str(" = spawn(")?;
            push_expr(out, depth, budget)?;
            out.push_str(") ")?;
            push_call(out, depth, call)
        }
        StmtKind::Await(handle) => push_await(out, handle),
        StmtKind::Call(call) => push_call(out, depth, call),
        StmtKind::Block(block) => push_bare(out, depth, block),
    }
}

#[cycle(parts)]
fn push_var(
    out: &mut String,
    depth: usize,
    value: &Option<Expr>,
    name: &Name,
    ty: &Ty,
) -> Result<(), NoMemory>
    ensures { OnOk result (string_bytes out.new ≡ string_bytes out.old ++ texts.var_text depth name.now ty.now value.now) }
{
    out.push_str("var ")?;
    push_typed(out, name, ty)?;
    match value {
        None => Ok(()),
        Some(value) => {
            out.push_str(" = ")?;
            push_expr(out, depth, value)
        }
    }
}

#[cycle(parts)]
fn push_let(
    out: &mut String,
    depth: usize,
    value: &Expr,
    name: &Name,
    ty: &Ty,
) -> Result<(), NoMemory>
    ensures { OnOk result (string_bytes out.new ≡ string_bytes out.old ++ texts.let_text depth name.now ty.now value.now) }
{
    out.push_str("let ")?;
    push_typed(out, name, ty)?;
    out.push_str(" = ")?;
    push_expr(out, depth, value)
}

#[cycle(parts)]
fn push_inout(
    out: &mut String,
    depth: usize,
    place: &PlaceExpr,
    name: &Name,
    ty: &Ty,
) -> Result<(), NoMemory>
    ensures { OnOk result (string_bytes out.new ≡ string_bytes out.old ++ texts.inout_text depth name.now ty.now place.now) }
{
    out.push_str("inout ")?;
    push_typed(out, name, ty)?;
    out.push_str(" = &")?;
    push_place(out, depth, place)
}

#[cycle(parts)]
fn push_print(out: &mut String, depth: usize, value: &Expr) -> Result<(), NoMemory>
    ensures { OnOk result (string_bytes out.new ≡ string_bytes out.old ++ texts.print_text depth value.now) }
{
    out.push_str("print(")?;
    push_expr(out, depth, value)?;
    out.push_str(")")
}

// A `return` without value is set off from what follows it.
#[cycle(parts)]
fn push_return_stmt(out: &mut String, depth: usize, value: &Option<Expr>) -> Result<(), NoMemory>
    ensures { OnOk result (string_bytes out.new ≡ string_bytes out.old ++ texts.return_text depth value.now) }
{
    match value {
        None => out.push_str("return;"),
        Some(value) => {
            out.push_str("return ")?;
            push_expr(out, depth, value)
        }
    }
}

#[cycle(parts)]
fn push_branches(out: &mut String, depth: usize, branches: &[Branch]) -> Result<(), NoMemory>
    ensures { OnOk result (string_bytes out.new ≡ string_bytes out.old ++ texts.branches_text depth (codes "if ") branches.now) }
{
    let mut before = "if ";
    for branch in branches {
        out.push_str(before)?;
        push_branch(out, depth, branch)?;
        before = " else if ";
    }
    Ok(())
}

// The last `else`, if there is one.
#[cycle(parts)]
fn push_else(out: &mut String, depth: usize, otherwise: &Option<Block>) -> Result<(), NoMemory>
    ensures { OnOk result (string_bytes out.new ≡ string_bytes out.old ++ texts.else_text depth otherwise.now) }
{
    match otherwise {
        None => Ok(()),
        Some(body) => {
            out.push_str(" else")?;
            push_block(out, depth, body)
        }
    }
}

// A test and its block.
#[cycle(parts)]
fn push_branch(out: &mut String, depth: usize, branch: &Branch) -> Result<(), NoMemory>
    ensures { OnOk result (string_bytes out.new ≡ string_bytes out.old ++ texts.branch_text depth branch.now) }
{
    push_expr(out, depth, &branch.test)?;
    push_block(out, depth, &branch.body)
}
