// What the cells may be where the pass stands.
ghost use Rattle.std.specs.Prelude.{◌≡◌};
ghost use Rattle.hv_flow_pass.specs.Cells as spec;

use crate::act::Range;
use hv_flow_versions::Versions;

/// Whether the cell may be as it was as the turn began.
pub fn is_kept(versions: &Versions, at: usize) -> bool
    ensures { result ≡ spec.kept_at versions.now.now at }
{
    match versions.at(at) {
        Some(cell) => cell.kept,
        None => false,
    }
}

/// Whether the cell may have the value.
pub fn may_be(versions: &Versions, at: usize, value: bool) -> bool
    ensures { result ≡ spec.may_at versions.now.now at value }
{
    match versions.at(at) {
        Some(cell) => cell.may(value),
        None => false,
    }
}

/// Whether one of the cells may have the value.
#[tactic(auto, using(crate::proofs::CellLemmas::may_still, crate::proofs::CellLemmas::may_there))]
pub fn may(versions: &Versions, range: Range, value: bool) -> bool
    ensures { result ≡ spec.may_in value range.from range.count versions.now.now }
{
    let from = range.from as usize;
    for k in 0..range.count as usize {
        if may_be(versions, from + k, value) {
            return true;
        }
    }
    false
}
