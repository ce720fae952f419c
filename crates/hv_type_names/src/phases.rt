ghost use Rattle.std.specs.Prelude.{[], ◌∷◌, IfOk};
ghost use Rattle.hv_tree.specs.Core.{core_tree};
ghost use Rattle.hv_rules.specs.Accepted.{NamePhase, IsFirstOf};

use crate::decls::all_found;
use hv_tree::{Refusal, Tree, first};
use std::alloc::{AllocError as NoMemory, Global};

/// The first violation of the rules of names.
pub fn names(alloc: Global, tree: &Tree) -> Result<Option<Refusal>, NoMemory>
    ensures first { IfOk result (IsFirstOf (NamePhase ∷ []) (core_tree tree.now)) }
{
    let found = all_found(alloc, tree.decls.as_slice())?;
    Ok(first(found.as_slice()))
}
