// The locals of a body in the order of their declarations.
ghost use Rattle.std.specs.Prelude.{◌≡◌, ◌++◌, ◌∷◌, [], map, IfOk, OnOk};
ghost use Rattle.hv_tree.specs.Core.{core_stmt, core_stmts, core_block};
ghost use Rattle.hv_decls.specs.Locals.{declared_in, in_block, in_stmts, locals_of};
ghost use Rattle.hv_scope.specs.Known.{local_by, declared_by};
ghost use Rattle.hv_scope.specs.Bodies.{body_by};
ghost use Rattle.hv_scope.specs.Blocks.{tests_declare, else_declares};

use crate::bodies::Body;
use crate::bound::entry_of;
use crate::known::{Kind, Known};
use crate::locals::Locals;
use hv_tree::{Block, Branch, Name, Stmt, StmtKind, Ty};
use std::alloc::{AllocError as NoMemory, Global};

fn add<'t>(
    known: &mut Vec<Known<'t>>,
    kind: Kind,
    name: &'t Name,
    ty: Option<&'t Ty>,
) -> Result<(), NoMemory>
    ensures { OnOk result (map local_by known.new.items ≡ map local_by known.old.items ++ declared_by kind name.now ty.entry ∷ []) }
{
    known.push(Known { name, kind, ty })?;
    Ok(())
}

#[cycle(locals)]
#[tactic(auto, using(crate::proofs::LocalLemmas::declares_var, crate::proofs::LocalLemmas::declares_let, crate::proofs::LocalLemmas::declares_inout, crate::proofs::LocalLemmas::declares_assign, crate::proofs::LocalLemmas::declares_if, crate::proofs::LocalLemmas::declares_while, crate::proofs::LocalLemmas::declares_return, crate::proofs::LocalLemmas::declares_print, crate::proofs::LocalLemmas::declares_task, crate::proofs::LocalLemmas::declares_await, crate::proofs::LocalLemmas::declares_call, crate::proofs::LocalLemmas::declares_block))]
fn add_stmt<'t>(known: &mut Vec<Known<'t>>, stmt: &'t Stmt) -> Result<(), NoMemory>
    ensures { OnOk result (map local_by known.new.items ≡ map local_by known.old.items ++ declared_in (core_stmt stmt.now)) }
{
    match &stmt.kind {
        StmtKind::Var(name, ty, _) => add(known, Kind::Var, name, Some(ty)),
        StmtKind::Let(name, ty, _) => add(known, Kind::Let, name, Some(ty)),
        StmtKind::Inout(name, ty, _) => add(known, Kind::Inout, name, Some(ty)),
        StmtKind::Assign(_, _) => Ok(()),
        StmtKind::If(branches, otherwise) => {
            add_branches(known, branches.as_slice())?;
            add_else(known, otherwise)
        }
        StmtKind::While(_, body) => add_block(known, body),
        StmtKind::Return(_) => Ok(()),
        StmtKind::Print(_) => Ok(()),
        StmtKind::Task(name, ty, _, _, _) => add(known, Kind::Handle, name, ty.as_ref()),
        StmtKind::Await(_) => Ok(()),
        StmtKind::Call(_) => Ok(()),
        StmtKind::Block(block) => add_block(known, block),
    }
}

#[cycle(locals)]
fn add_stmts<'t>(known: &mut Vec<Known<'t>>, stmts: &'t [Stmt]) -> Result<(), NoMemory>
    ensures { OnOk result (map local_by known.new.items ≡ map local_by known.old.items ++ in_stmts (core_stmts stmts.now)) }
{
    for stmt in stmts {
        add_stmt(known, stmt)?;
    }
    Ok(())
}

#[cycle(locals)]
#[tactic(auto, using(crate::proofs::LocalLemmas::block_declares))]
fn add_block<'t>(known: &mut Vec<Known<'t>>, block: &'t Block) -> Result<(), NoMemory>
    ensures { OnOk result (map local_by known.new.items ≡ map local_by known.old.items ++ in_block (core_block block.now)) }
{
    add_stmts(known, block.stmts.as_slice())
}

#[cycle(locals)]
fn add_branches<'t>(known: &mut Vec<Known<'t>>, branches: &'t [Branch]) -> Result<(), NoMemory>
    ensures { OnOk result (map local_by known.new.items ≡ map local_by known.old.items ++ tests_declare branches.now) }
{
    for branch in branches {
        add_block(known, &branch.body)?;
    }
    Ok(())
}

#[cycle(locals)]
fn add_else<'t>(known: &mut Vec<Known<'t>>, otherwise: &'t Option<Block>) -> Result<(), NoMemory>
    ensures { OnOk result (map local_by known.new.items ≡ map local_by known.old.items ++ else_declares otherwise.now) }
{
    match otherwise {
        None => Ok(()),
        Some(block) => add_block(known, block),
    }
}

/// All locals of a body.
pub fn body_locals<'t>(alloc: Global, body: &Body<'t>) -> Result<Locals<'t>, NoMemory>
    ensures { IfOk result (λ l. map local_by l ≡ locals_of (body_by body.now)) }
{
    let mut known = entry_of(alloc, body.captures.as_slice(), body.params)?;
    add_block(&mut known, body.block)?;
    Locals::of(alloc, known)
}
