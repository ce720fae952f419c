// The ends of a body, in one walk over its statements.
ghost use Rattle.std.specs.Prelude.{◌≡◌, ◌++◌, ◌∷◌, [], map, IfOk, OnOk};
ghost use Rattle.hv_tree.specs.Core.{core_stmts};
ghost use Rattle.hv_flow_ends.specs.Ends.{numbers_in, belongs_by};
ghost use Rattle.hv_flow_ends.specs.Walked as spec;

use crate::count::{count_block, count_stmt, count_tests, sum};
use crate::span::{End, Span, push_number, push_spans};
use hv_items::Items;
use hv_tree::{Block, Branch, Stmt, StmtKind};
use std::alloc::{AllocError as NoMemory, Global};

/// A block that has begun: which of its own locals are written back so far, and all its own handles.
#[derive(Drop)]
pub struct Opened {
    pub back: Items<Span>,
    pub handles: Items<Span>,
}

#[tactic(auto, using(crate::proofs::Variants::handle_task))]
fn push_handle(handles: &mut Items<Span>, next: u32, stmt: &Stmt) -> Result<(), NoMemory>
    ensures { OnOk result (numbers_in handles.new ≡ numbers_in handles.old ++ spec.handle_more next stmt.now) }
{
    match &stmt.kind {
        StmtKind::Task(_, _, _, _, _) => push_number(handles, next),
        StmtKind::Var(_, _, _) => Ok(()),
        StmtKind::Let(_, _, _) => Ok(()),
        StmtKind::Inout(_, _, _) => Ok(()),
        StmtKind::Assign(_, _) => Ok(()),
        StmtKind::If(_, _) => Ok(()),
        StmtKind::While(_, _) => Ok(()),
        StmtKind::Return(_) => Ok(()),
        StmtKind::Print(_) => Ok(()),
        StmtKind::Await(_) => Ok(()),
        StmtKind::Call(_) => Ok(()),
        StmtKind::Block(_) => Ok(()),
    }
}

#[tactic(auto, using(crate::proofs::Variants::back_inout))]
fn push_back(back: &mut Items<Span>, next: u32, stmt: &Stmt) -> Result<(), NoMemory>
    ensures { OnOk result (numbers_in back.new ≡ numbers_in back.old ++ spec.back_more next stmt.now) }
{
    match &stmt.kind {
        StmtKind::Inout(_, _, _) => push_number(back, next),
        StmtKind::Var(_, _, _) => Ok(()),
        StmtKind::Let(_, _, _) => Ok(()),
        StmtKind::Assign(_, _) => Ok(()),
        StmtKind::If(_, _) => Ok(()),
        StmtKind::While(_, _) => Ok(()),
        StmtKind::Return(_) => Ok(()),
        StmtKind::Print(_) => Ok(()),
        StmtKind::Task(_, _, _, _, _) => Ok(()),
        StmtKind::Await(_) => Ok(()),
        StmtKind::Call(_) => Ok(()),
        StmtKind::Block(_) => Ok(()),
    }
}

/// All handles that a block declares itself.
pub(crate) fn own_handles(alloc: Global, next: u32, stmts: &[Stmt]) -> Result<Items<Span>, NoMemory>
    ensures { IfOk result (λ spans. numbers_in spans ≡ spec.own_handles next (core_stmts stmts.now)) }
{
    let mut handles = Items::new(alloc);
    let mut next = next;
    for stmt in stmts {
        push_handle(&mut handles, next, stmt)?;
        next = sum(next, count_stmt(stmt)?)?;
    }
    Ok(handles)
}

fn backs_of(alloc: Global, around: &[Opened]) -> Result<Items<Span>, NoMemory>
    ensures { IfOk result (λ spans. numbers_in spans ≡ spec.backs_in around.now) }
{
    let mut all = Items::new(alloc);
    for opened in around {
        push_spans(&mut all, opened.back.as_slice())?;
    }
    Ok(all)
}

fn handles_of(alloc: Global, around: &[Opened]) -> Result<Items<Span>, NoMemory>
    ensures { IfOk result (λ spans. numbers_in spans ≡ spec.handles_in around.now) }
{
    let mut all = Items::new(alloc);
    for opened in around {
        push_spans(&mut all, opened.handles.as_slice())?;
    }
    Ok(all)
}

fn push_return(alloc: Global, ends: &mut Items<End>, around: &[Opened]) -> Result<(), NoMemory>
    ensures { OnOk result (map belongs_by ends.new ≡ map belongs_by ends.old ++ spec.end_at_return around.now ∷ []) }
{
    let back = backs_of(alloc, around)?;
    let handles = handles_of(alloc, around)?;
    ends.push(End {
        back,
        handles,
        missing: false,
    })
}

// The innermost block.
fn pop_block(around: &mut Items<Opened>) -> Result<Opened, NoMemory>
    ensures { IfOk result (λ o. around.old ≡ around.new ++ o ∷ []) }
{
    around.pop().ok_or(NoMemory)
}

// The block behind a statement of its own.
fn behind(opened: Opened, next: u32, stmt: &Stmt) -> Result<Opened, NoMemory>
    ensures back { IfOk result (λ o. numbers_in o.back ≡ numbers_in opened.back ++ spec.back_more next stmt.now) }
    ensures handles { IfOk result (λ o. o.handles ≡ opened.handles) }
{
    let Opened { mut back, handles } = opened;
    push_back(&mut back, next, stmt)?;
    Ok(Opened { back, handles })
}

#[cycle(ends)]
#[tactic(auto, using(crate::proofs::Variants::ends_var, crate::proofs::Variants::ends_let, crate::proofs::Variants::ends_inout, crate::proofs::Variants::ends_assign, crate::proofs::Variants::ends_if, crate::proofs::Variants::ends_while, crate::proofs::Variants::ends_return, crate::proofs::Variants::ends_print, crate::proofs::Variants::ends_task, crate::proofs::Variants::ends_await, crate::proofs::Variants::ends_call, crate::proofs::Variants::ends_block))]
fn walk_stmt(
    alloc: Global,
    ends: &mut Items<End>,
    around: &mut Items<Opened>,
    next: u32,
    stmt: &Stmt,
) -> Result<(), NoMemory>
    ensures ends { OnOk result (map belongs_by ends.new ≡ map belongs_by ends.old ++ spec.ends_of_stmt next around.old stmt.now) }
    ensures around { OnOk result (around.new ≡ around.old) }
{
    match &stmt.kind {
        StmtKind::If(branches, otherwise) => {
            let branches = branches.as_slice();
            walk_tests(alloc, ends, around, next, branches)?;
            walk_else(
                alloc,
                ends,
                around,
                sum(next, count_tests(branches)?)?,
                otherwise,
            )
        }
        StmtKind::While(_, body) => walk_block(alloc, ends, around, next, body),
        StmtKind::Return(_) => push_return(alloc, ends, around.as_slice()),
        StmtKind::Block(block) => walk_block(alloc, ends, around, next, block),
        StmtKind::Var(_, _, _) => Ok(()),
        StmtKind::Let(_, _, _) => Ok(()),
        StmtKind::Inout(_, _, _) => Ok(()),
        StmtKind::Assign(_, _) => Ok(()),
        StmtKind::Print(_) => Ok(()),
        StmtKind::Task(_, _, _, _, _) => Ok(()),
        StmtKind::Await(_) => Ok(()),
        StmtKind::Call(_) => Ok(()),
    }
}

// The statements of a block, and the block behind them.
#[cycle(ends)]
pub(crate) fn walk_stmts(
    alloc: Global,
    ends: &mut Items<End>,
    around: &mut Items<Opened>,
    opened: Opened,
    next: u32,
    stmts: &[Stmt],
) -> Result<Opened, NoMemory>
    ensures ends { OnOk result (map belongs_by ends.new ≡ map belongs_by ends.old ++ spec.ends_of_stmts next (around.old ++ opened ∷ []) stmts.now) }
    ensures around { OnOk result (around.new ≡ around.old) }
    ensures back { IfOk result (λ o. numbers_in o.back ≡ numbers_in opened.back ++ spec.own_back next (core_stmts stmts.now)) }
    ensures handles { IfOk result (λ o. o.handles ≡ opened.handles) }
{
    let mut opened = opened;
    let mut next = next;
    for stmt in stmts {
        around.push(opened)?;
        walk_stmt(alloc, ends, around, next, stmt)?;
        opened = behind(pop_block(around)?, next, stmt)?;
        next = sum(next, count_stmt(stmt)?)?;
    }
    Ok(opened)
}

#[cycle(ends)]
fn walk_block(
    alloc: Global,
    ends: &mut Items<End>,
    around: &mut Items<Opened>,
    next: u32,
    block: &Block,
) -> Result<(), NoMemory>
    ensures ends { OnOk result (map belongs_by ends.new ≡ map belongs_by ends.old ++ spec.ends_of_block next around.old block.now) }
    ensures around { OnOk result (around.new ≡ around.old) }
{
    let stmts = block.stmts.as_slice();
    let opened = Opened {
        back: Items::new(alloc),
        handles: own_handles(alloc, next, stmts)?,
    };
    let Opened { back, handles } = walk_stmts(alloc, ends, around, opened, next, stmts)?;
    ends.push(End {
        back,
        handles,
        missing: false,
    })
}

#[cycle(ends)]
fn walk_tests(
    alloc: Global,
    ends: &mut Items<End>,
    around: &mut Items<Opened>,
    next: u32,
    branches: &[Branch],
) -> Result<(), NoMemory>
    ensures ends { OnOk result (map belongs_by ends.new ≡ map belongs_by ends.old ++ spec.ends_of_tests next around.old branches.now) }
    ensures around { OnOk result (around.new ≡ around.old) }
{
    let mut next = next;
    for branch in branches {
        walk_block(alloc, ends, around, next, &branch.body)?;
        next = sum(next, count_block(&branch.body)?)?;
    }
    Ok(())
}

#[cycle(ends)]
fn walk_else(
    alloc: Global,
    ends: &mut Items<End>,
    around: &mut Items<Opened>,
    next: u32,
    otherwise: &Option<Block>,
) -> Result<(), NoMemory>
    ensures ends { OnOk result (map belongs_by ends.new ≡ map belongs_by ends.old ++ spec.ends_of_else next around.old otherwise.now) }
    ensures around { OnOk result (around.new ≡ around.old) }
{
    match otherwise {
        None => Ok(()),
        Some(block) => walk_block(alloc, ends, around, next, block),
    }
}
