// The first of refusals.
ghost use Rattle.std.specs.Prelude.{Contains};
ghost use Rattle.hv_tree.specs.Earlier.{IsFirst};

use crate::{Refusal, earlier};

/// The first of these, or none where there is none.
pub fn first(found: &[Refusal]) -> Option<Refusal>
    ensures { IsFirst (Contains found.now) result }
{
    let mut best = None;
    for refusal in found {
        best = earlier(best, Some(*refusal));
    }
    best
}
