// The size of a tree.

ghost use Rattle.std.specs.Prelude.{◌≡◌, ◌≤◌, ◌<◌, MatchOption};
ghost use Rattle.hv_partial.specs.HeldTree.{held_tree, held_trees};
ghost use Rattle.hv_value.specs.Sizes as spec;

use crate::tree::Held;

/// The size, unless it is above the limit. No more nodes are looked at than the limit and one.
#[cycle(size)]
pub fn size(held: &Held, limit: u64) -> Option<u64>
    ensures { MatchOption result (limit < spec.size (held_tree held.now)) (λ n. (n ≡ spec.size (held_tree held.now)) × (n ≤ limit)) }
{
    if limit == 0 {
        return None;
    }
    match held {
        Held::Hole | Held::Int(_) | Held::Bool(_) => Some(1),
        Held::Struct(parts) | Held::Array(parts) | Held::Fun(_, parts) => {
            let below = sizes(parts.as_slice(), limit - 1)?;
            Some(below + 1)
        }
    }
}

// The sizes of several trees together, unless they are above the limit.
#[cycle(size)]
fn sizes(parts: &[Held], limit: u64) -> Option<u64>
    ensures { MatchOption result (limit < spec.sizes (held_trees parts.now)) (λ n. (n ≡ spec.sizes (held_trees parts.now)) × (n ≤ limit)) }
{
    let mut total = 0u64;
    for part in parts {
        total += size(part, limit - total)?;
    }
    Some(total)
}
