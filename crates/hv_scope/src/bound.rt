// What is visible where a walk stands.
ghost use Rattle.std.specs.Prelude.{◌≡◌, ◌++◌, ◌∷◌, [], map, length, IfOk, OnOk};
ghost use Rattle.hv_tree.specs.Core.{core_param, core_stmt};
ghost use Rattle.hv_decls.specs.Locals.{param_local, binds, listed};
ghost use Rattle.hv_decls.specs.Sites.{capture_local};
ghost use Rattle.hv_scope.specs.Known.{local_by, declared_by};
ghost use Rattle.hv_scope.specs.Oldest.{oldest};

use crate::known::{Kind, Known, value_type};
use crate::visible::Visible;
use hv_tree::{Name, Param, Stmt, StmtKind, Ty};
use std::alloc::{AllocError as NoMemory, Global};

#[tactic(auto, using(crate::proofs::OldestLemmas::oldest_one))]
fn bind<'t>(
    visible: &mut Visible<'t>,
    kind: Kind,
    name: &'t Name,
    ty: Option<&'t Ty>,
) -> Result<(), NoMemory>
    ensures seen { OnOk result (map local_by visible.new ≡ declared_by kind name.now ty.entry ∷ map local_by visible.old) }
    ensures kept { OnOk result (oldest (length visible.old) visible.new ≡ visible.old) }
{
    visible.push(Known { name, kind, ty })
}

/// The local that a statement declares is visible behind it.
#[tactic(auto, using(crate::proofs::OldestLemmas::oldest_same, crate::proofs::BindLemmas::binds_var, crate::proofs::BindLemmas::binds_let, crate::proofs::BindLemmas::binds_inout, crate::proofs::BindLemmas::binds_task, crate::proofs::BindLemmas::binds_assign, crate::proofs::BindLemmas::binds_if, crate::proofs::BindLemmas::binds_while, crate::proofs::BindLemmas::binds_return, crate::proofs::BindLemmas::binds_print, crate::proofs::BindLemmas::binds_await, crate::proofs::BindLemmas::binds_call, crate::proofs::BindLemmas::binds_block))]
pub fn push_bound<'t>(visible: &mut Visible<'t>, stmt: &'t Stmt) -> Result<(), NoMemory>
    ensures seen { OnOk result (map local_by visible.new ≡ listed (binds (core_stmt stmt.now)) ++ map local_by visible.old) }
    ensures kept { OnOk result (oldest (length visible.old) visible.new ≡ visible.old) }
{
    match &stmt.kind {
        StmtKind::Var(name, ty, _) => bind(visible, Kind::Var, name, Some(ty)),
        StmtKind::Let(name, ty, _) => bind(visible, Kind::Let, name, Some(ty)),
        StmtKind::Inout(name, ty, _) => bind(visible, Kind::Inout, name, Some(ty)),
        StmtKind::Task(name, ty, _, _, _) => bind(visible, Kind::Handle, name, ty.as_ref()),
        StmtKind::Assign(_, _) => Ok(()),
        StmtKind::If(_, _) => Ok(()),
        StmtKind::While(_, _) => Ok(()),
        StmtKind::Return(_) => Ok(()),
        StmtKind::Print(_) => Ok(()),
        StmtKind::Await(_) => Ok(()),
        StmtKind::Call(_) => Ok(()),
        StmtKind::Block(_) => Ok(()),
    }
}

fn capture_of<'t>(visible: &Visible<'t>, name: &'t Name) -> Known<'t>
    ensures { local_by result ≡ capture_local (map local_by visible.now) name.now }
{
    let ty = match visible.find(name.text.as_str()) {
        Some(known) => value_type(&known),
        None => None,
    };
    Known {
        name,
        kind: Kind::Captured,
        ty,
    }
}

/// The captures of a lambda that stands where these locals are visible.
pub fn captures_of<'t>(
    alloc: Global,
    visible: &Visible<'t>,
    captures: &'t [Name],
) -> Result<Vec<Known<'t>>, NoMemory>
    ensures { IfOk result (λ v. map local_by v.items ≡ map (capture_local (map local_by visible.now)) captures.now) }
{
    let mut known = Vec::new(alloc);
    for name in captures {
        known.push(capture_of(visible, name))?;
    }
    Ok(known)
}

fn passed<'t>(param: &'t Param) -> Known<'t>
    ensures { local_by result ≡ param_local (core_param param.now) }
{
    Known {
        name: &param.name,
        kind: Kind::Passed(param.conv),
        ty: Some(&param.ty),
    }
}

/// The captures and parameters of a body, in order.
pub fn entry_of<'t>(
    alloc: Global,
    captures: &[Known<'t>],
    params: &'t [Param],
) -> Result<Vec<Known<'t>>, NoMemory>
    ensures { IfOk result (λ v. map local_by v.items ≡ map local_by captures.now ++ map param_local (map core_param params.now)) }
{
    let mut known = Vec::new(alloc);
    for capture in captures {
        known.push(*capture)?;
    }
    for param in params {
        known.push(passed(param))?;
    }
    Ok(known)
}

// The first one hides the others.
fn turned<'t>(alloc: Global, mut known: Vec<Known<'t>>) -> Result<Visible<'t>, NoMemory>
    ensures { IfOk result (λ v. map local_by v ≡ map local_by known.entry.items) }
{
    let mut visible = Visible::new(alloc);
    while let Some(last) = known.pop() {
        visible.push(last)?;
    }
    Ok(visible)
}

/// What is visible at the beginning of a body.
pub fn visible_first<'t>(
    alloc: Global,
    captures: &[Known<'t>],
    params: &'t [Param],
) -> Result<Visible<'t>, NoMemory>
    ensures { IfOk result (λ v. map local_by v ≡ map local_by captures.now ++ map param_local (map core_param params.now)) }
{
    let known = entry_of(alloc, captures, params)?;
    turned(alloc, known)
}
