// Which trees are equal.

ghost use Rattle.std.specs.Prelude.{◌≡◌};
ghost use Rattle.hv_value.specs.Equality.{same, all_same};
ghost use Rattle.hv_partial.specs.HeldTree.{held_tree, held_trees};

use crate::tree::Held;

/// Whether the trees are equal.
#[cycle(equal)]
pub fn equal(a: &Held, b: &Held) -> bool
    ensures { result ≡ same (held_tree a.now) (held_tree b.now) }
{
    match (a, b) {
        (Held::Hole, Held::Hole) => true,
        (Held::Int(i), Held::Int(j)) => i == j,
        (Held::Bool(i), Held::Bool(j)) => i == j,
        (Held::Struct(xs), Held::Struct(ys)) => equals(xs.as_slice(), ys.as_slice()),
        (Held::Array(xs), Held::Array(ys)) => equals(xs.as_slice(), ys.as_slice()),
        (Held::Fun(f, xs), Held::Fun(g, ys)) => f == g && equals(xs.as_slice(), ys.as_slice()),
        _ => false,
    }
}

#[cycle(equal)]
#[tactic(auto, using(crate::proofs::ListLemmas::all_same_lengths))]
fn equals(a: &[Held], b: &[Held]) -> bool
    ensures { result ≡ all_same (held_trees a.now) (held_trees b.now) }
{
    if a.len() != b.len() {
        return false;
    }
    for (i, x) in a.iter().enumerate() {
        if !equal(x, &b[i]) {
            return false;
        }
    }
    true
}
