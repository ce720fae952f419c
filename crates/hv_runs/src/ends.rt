// How a body ends.
ghost use Rattle.std.specs.Prelude.{◌≡◌, map};
ghost use Rattle.hv_tree.specs.Core.{core_block, core_stmt, core_stmts, core_param, core_option_ty};
ghost use Rattle.hv_law_safe.specs.Runs.{gives_back, ends_in_return};
ghost use Rattle.hv_runs.specs.Walked as spec;

use crate::types::{option_ty_reads, params_read};
use hv_tree::{Block, Param, Stmt, StmtKind, Ty};

#[tactic(auto, using(crate::proofs::Parts::gives_back_opened, hv_tree::specs::declared::ast::Arg::TheViews::the_lemmas), unfolding(crate::proofs::Parts::gives_back_by))]
fn gives_back(stmt: &Stmt) -> bool
    ensures { result ≡ gives_back (core_stmt stmt.now) }
{
    match &stmt.kind {
        StmtKind::Return(Some(_)) => true,
        _ => false,
    }
}

#[tactic(auto, using(crate::proofs::Parts::last_decides))]
fn ends_in_return(stmts: &[Stmt]) -> bool
    ensures { result ≡ ends_in_return (core_stmts stmts.now) }
{
    match stmts.last() {
        Some(stmt) => gives_back(stmt),
        None => false,
    }
}

#[tactic(auto, using(hv_tree::proofs::CoreLemmas::opened_block))]
fn returns(returned: &Option<Ty>, block: &Block) -> bool
    ensures { result ≡ spec.returns (core_option_ty returned.now) (core_block block.now) }
{
    match returned {
        Some(_) => ends_in_return(block.stmts.as_slice()),
        None => true,
    }
}

pub(crate) fn header_runs(params: &[Param], returned: &Option<Ty>, block: &Block) -> bool
    ensures { result ≡ spec.header_runs (map core_param params.now) (core_option_ty returned.now) (core_block block.now) }
{
    params_read(params) && option_ty_reads(returned) && returns(returned, block)
}
