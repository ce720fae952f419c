ghost use Rattle.std.specs.Prelude.{◌≡◌, ◌↔◌, IsTrue, map};
ghost use Rattle.hv_tree.specs.Core.{core_decl, core_tree};
ghost use Rattle.hv_law_safe.specs.Runs.{Runs};
ghost use Rattle.hv_runs.specs.Walked as spec;

use crate::types::fields_read;
use crate::walk::body_runs;
use hv_tree::{Decl, Tree};

fn decl_runs(decl: &Decl) -> bool
    ensures { result ≡ spec.decl_runs (core_decl decl.now) }
{
    match decl {
        Decl::Struct(declared) => fields_read(declared.fields.as_slice()),
        Decl::Fun(function) => body_runs(
            function.params.as_slice(),
            &function.result,
            &function.body,
        ),
    }
}

fn decls_run(decls: &[Decl]) -> bool
    ensures { result ≡ spec.decls_run (map core_decl decls.now) }
{
    for decl in decls {
        if !decl_runs(decl) {
            return false;
        }
    }
    true
}

/// Whether the program changes no place through another, and has neither tasks nor bindings without a
/// value. It looks at each part once.
#[tactic(auto, using(crate::proofs::Exact::exactly))]
pub fn runs(tree: &Tree) -> bool
    ensures { IsTrue result ↔ Runs (core_tree tree.now) }
{
    decls_run(tree.decls.as_slice())
}
