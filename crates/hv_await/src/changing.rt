// Tasks whose function would change what its caller has, in one walk over a body's statements.
ghost use Rattle.std.specs.Prelude.{◌≡◌, ◌++◌, length, map, OnOk};
ghost use Rattle.hv_tree.specs.Core.{core_stmt, core_tree};
ghost use Rattle.hv_scope.specs.Bodies.{body_by};
ghost use Rattle.hv_scope.specs.Known.{local_by};
ghost use Rattle.hv_scope.specs.Oldest.{oldest};
ghost use Rattle.hv_await.specs.Changing as spec;

use crate::callee::takes_change;
use hv_scope::{Body, Declared, Visible, push_bound, visible_first};
use hv_tree::{Block, Branch, Call, Refusal, Rule, Stmt, StmtKind};
use std::alloc::{AllocError as NoMemory, Global};

fn judge_task<'t>(
    declared: &Declared<'t>,
    visible: &Visible<'t>,
    found: &mut Vec<Refusal>,
    call: &Call,
) -> Result<(), NoMemory>
    ensures { OnOk result (found.new.items ≡ found.old.items ++ spec.changes_in_call (core_tree declared.now) (map local_by visible.now) call.now) }
{
    if takes_change(declared, visible, &call.callee) {
        found.push(Refusal {
            rule: Rule::S3,
            place: call.callee.root.place,
        })?;
    }
    Ok(())
}

#[cycle(changes)]
#[tactic(auto, using(crate::proofs::Changes::changes_if, crate::proofs::Changes::changes_while, crate::proofs::Changes::changes_task, crate::proofs::Changes::changes_block))]
fn judge_stmt<'t>(
    declared: &Declared<'t>,
    visible: &mut Visible<'t>,
    found: &mut Vec<Refusal>,
    stmt: &'t Stmt,
) -> Result<(), NoMemory>
    ensures found { OnOk result (found.new.items ≡ found.old.items ++ spec.changes_in_stmt (core_tree declared.now) (map local_by visible.old) stmt.now) }
    ensures visible { OnOk result (visible.new ≡ visible.old) }
{
    match &stmt.kind {
        StmtKind::If(branches, otherwise) => {
            judge_tests(declared, visible, found, branches.as_slice())?;
            judge_else(declared, visible, found, otherwise)
        }
        StmtKind::While(_, body) => judge_block(declared, visible, found, body),
        StmtKind::Task(_, _, _, _, call) => judge_task(declared, visible, found, call),
        StmtKind::Block(block) => judge_block(declared, visible, found, block),
        StmtKind::Var(_, _, _) => Ok(()),
        StmtKind::Let(_, _, _) => Ok(()),
        StmtKind::Inout(_, _, _) => Ok(()),
        StmtKind::Assign(_, _) => Ok(()),
        StmtKind::Return(_) => Ok(()),
        StmtKind::Print(_) => Ok(()),
        StmtKind::Await(_) => Ok(()),
        StmtKind::Call(_) => Ok(()),
    }
}

#[cycle(changes)]
fn judge_stmts<'t>(
    declared: &Declared<'t>,
    visible: &mut Visible<'t>,
    found: &mut Vec<Refusal>,
    stmts: &'t [Stmt],
) -> Result<(), NoMemory>
    ensures found { OnOk result (found.new.items ≡ found.old.items ++ spec.changes_in_stmts (core_tree declared.now) (map local_by visible.old) stmts.now) }
    ensures kept { OnOk result (oldest (length visible.old) visible.new ≡ visible.old) }
{
    for stmt in stmts {
        judge_stmt(declared, visible, found, stmt)?;
        push_bound(visible, stmt)?;
    }
    Ok(())
}

#[cycle(changes)]
#[tactic(auto, using(crate::proofs::Changes::block_opened))]
fn judge_block<'t>(
    declared: &Declared<'t>,
    visible: &mut Visible<'t>,
    found: &mut Vec<Refusal>,
    block: &'t Block,
) -> Result<(), NoMemory>
    ensures found { OnOk result (found.new.items ≡ found.old.items ++ spec.changes_in_block (core_tree declared.now) (map local_by visible.old) block.now) }
    ensures visible { OnOk result (visible.new ≡ visible.old) }
{
    let depth = visible.len();
    judge_stmts(declared, visible, found, block.stmts.as_slice())?;
    visible.shorten(depth);
    Ok(())
}

#[cycle(changes)]
fn judge_tests<'t>(
    declared: &Declared<'t>,
    visible: &mut Visible<'t>,
    found: &mut Vec<Refusal>,
    branches: &'t [Branch],
) -> Result<(), NoMemory>
    ensures found { OnOk result (found.new.items ≡ found.old.items ++ spec.changes_in_tests (core_tree declared.now) (map local_by visible.old) branches.now) }
    ensures visible { OnOk result (visible.new ≡ visible.old) }
{
    for branch in branches {
        judge_block(declared, visible, found, &branch.body)?;
    }
    Ok(())
}

#[cycle(changes)]
fn judge_else<'t>(
    declared: &Declared<'t>,
    visible: &mut Visible<'t>,
    found: &mut Vec<Refusal>,
    otherwise: &'t Option<Block>,
) -> Result<(), NoMemory>
    ensures found { OnOk result (found.new.items ≡ found.old.items ++ spec.changes_in_else (core_tree declared.now) (map local_by visible.old) otherwise.now) }
    ensures visible { OnOk result (visible.new ≡ visible.old) }
{
    match otherwise {
        None => Ok(()),
        Some(block) => judge_block(declared, visible, found, block),
    }
}

/// Such tasks in a body, without those in its lambdas.
pub(crate) fn judge_changes<'t>(
    alloc: Global,
    declared: &Declared<'t>,
    body: &Body<'t>,
    found: &mut Vec<Refusal>,
) -> Result<(), NoMemory>
    ensures { OnOk result (found.new.items ≡ found.old.items ++ spec.body_changes (core_tree declared.now) (body_by body.now)) }
{
    let mut visible = visible_first(alloc, body.captures.as_slice(), body.params)?;
    judge_block(declared, &mut visible, found, body.block)
}
