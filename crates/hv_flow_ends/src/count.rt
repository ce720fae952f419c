// How many locals each part of a body declares.
ghost use Rattle.std.specs.Prelude.{◌≡◌, ◌+◌, IfOk};
ghost use Rattle.hv_flow_ends.specs.Walked as spec;

use hv_tree::{Block, Branch, Stmt, StmtKind};
use std::alloc::AllocError as NoMemory;

pub(crate) fn sum(a: u32, b: u32) -> Result<u32, NoMemory>
    ensures { IfOk result (λ n. n ≡ a + b) }
{
    a.checked_add(b).ok_or(NoMemory)
}

#[cycle(counts)]
#[tactic(auto, using(crate::proofs::Variants::count_var, crate::proofs::Variants::count_let, crate::proofs::Variants::count_inout, crate::proofs::Variants::count_assign, crate::proofs::Variants::count_if, crate::proofs::Variants::count_while, crate::proofs::Variants::count_return, crate::proofs::Variants::count_print, crate::proofs::Variants::count_task, crate::proofs::Variants::count_await, crate::proofs::Variants::count_call, crate::proofs::Variants::count_block))]
pub(crate) fn count_stmt(stmt: &Stmt) -> Result<u32, NoMemory>
    ensures { IfOk result (λ n. n ≡ spec.stmt_locals stmt.now) }
{
    match &stmt.kind {
        StmtKind::Var(_, _, _) => Ok(1),
        StmtKind::Let(_, _, _) => Ok(1),
        StmtKind::Inout(_, _, _) => Ok(1),
        StmtKind::Assign(_, _) => Ok(0),
        StmtKind::If(branches, otherwise) => {
            sum(count_tests(branches.as_slice())?, count_else(otherwise)?)
        }
        StmtKind::While(_, body) => count_block(body),
        StmtKind::Return(_) => Ok(0),
        StmtKind::Print(_) => Ok(0),
        StmtKind::Task(_, _, _, _, _) => Ok(1),
        StmtKind::Await(_) => Ok(0),
        StmtKind::Call(_) => Ok(0),
        StmtKind::Block(block) => count_block(block),
    }
}

#[cycle(counts)]
fn count_stmts(stmts: &[Stmt]) -> Result<u32, NoMemory>
    ensures { IfOk result (λ n. n ≡ spec.stmts_locals stmts.now) }
{
    let mut count = 0u32;
    for stmt in stmts {
        count = sum(count, count_stmt(stmt)?)?;
    }
    Ok(count)
}

#[cycle(counts)]
#[tactic(auto, using(crate::proofs::Variants::block_counted))]
pub(crate) fn count_block(block: &Block) -> Result<u32, NoMemory>
    ensures { IfOk result (λ n. n ≡ spec.block_locals block.now) }
{
    count_stmts(block.stmts.as_slice())
}

#[cycle(counts)]
pub(crate) fn count_tests(branches: &[Branch]) -> Result<u32, NoMemory>
    ensures { IfOk result (λ n. n ≡ spec.tests_locals branches.now) }
{
    let mut count = 0u32;
    for branch in branches {
        count = sum(count, count_block(&branch.body)?)?;
    }
    Ok(count)
}

#[cycle(counts)]
fn count_else(otherwise: &Option<Block>) -> Result<u32, NoMemory>
    ensures { IfOk result (λ n. n ≡ spec.else_locals otherwise.now) }
{
    match otherwise {
        None => Ok(0),
        Some(block) => count_block(block),
    }
}
