// The size of a value.

ghost use Rattle.std.specs.Prelude.{◌≡◌, ◌≤◌, ◌<◌, MatchOption};
ghost use Rattle.hv_value.specs.ValueTree.{tree_of, trees_of};
ghost use Rattle.hv_value.specs.Sizes as spec;

use crate::value::Value;

/// The size, unless it is above the limit. No more nodes are looked at than the limit and one.
#[cycle(size)]
pub fn size(v: &Value, limit: u64) -> Option<u64>
    ensures { MatchOption result (limit < spec.size (tree_of v.now)) (λ n. (n ≡ spec.size (tree_of v.now)) × (n ≤ limit)) }
{
    if limit == 0 {
        return None;
    }
    match v {
        Value::Int(_) | Value::Bool(_) => Some(1),
        Value::Struct(parts) | Value::Array(parts) | Value::Fun(_, parts) => {
            let below = sizes(parts.as_slice(), limit - 1)?;
            Some(below + 1)
        }
    }
}

// The sizes of several values together, unless they are above the limit.
#[cycle(size)]
fn sizes(parts: &[Value], limit: u64) -> Option<u64>
    ensures { MatchOption result (limit < spec.sizes (trees_of parts.now)) (λ n. (n ≡ spec.sizes (trees_of parts.now)) × (n ≤ limit)) }
{
    let mut total = 0u64;
    for part in parts {
        total += size(part, limit - total)?;
    }
    Some(total)
}
