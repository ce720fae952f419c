// Which values are equal, and which hold a function.

ghost use Rattle.std.specs.Prelude.{◌≡◌, ◌↔◌, IsTrue};
ghost use Rattle.hv_value.specs.ValueTree.{tree_of, trees_of};
ghost use Rattle.hv_value.specs.Equality as spec;

use crate::value::Value;

/// Whether the trees are equal.
#[cycle(equal)]
pub fn equal(a: &Value, b: &Value) -> bool
    ensures equal { IsTrue result ↔ (a.now ≡ b.now) }
    ensures tested { result ≡ spec.same (tree_of a.now) (tree_of b.now) }
{
    match (a, b) {
        (Value::Int(i), Value::Int(j)) => i == j,
        (Value::Bool(i), Value::Bool(j)) => i == j,
        (Value::Struct(xs), Value::Struct(ys)) => equals(xs.as_slice(), ys.as_slice()),
        (Value::Array(xs), Value::Array(ys)) => equals(xs.as_slice(), ys.as_slice()),
        (Value::Fun(f, xs), Value::Fun(g, ys)) => f == g && equals(xs.as_slice(), ys.as_slice()),
        _ => false,
    }
}

#[cycle(equal)]
#[tactic(auto, using(crate::proofs::EqualityLaws::all_same_lengths))]
fn equals(a: &[Value], b: &[Value]) -> bool
    ensures equal { IsTrue result ↔ (a.now ≡ b.now) }
    ensures tested { result ≡ spec.all_same (trees_of a.now) (trees_of b.now) }
{
    if a.len() != b.len() {
        return false;
    }
    for (i, x) in a.iter().enumerate() {
        if !equal(x, &b[i]) {
            return false;
        }
    }
    true
}

/// Whether a function value stands in it.
#[cycle(has_function)]
pub fn has_function(v: &Value) -> bool
    ensures { result ≡ spec.has_function (tree_of v.now) }
{
    match v {
        Value::Int(_) | Value::Bool(_) => false,
        Value::Struct(parts) | Value::Array(parts) => some_function(parts.as_slice()),
        Value::Fun(_, _) => true,
    }
}

#[cycle(has_function)]
fn some_function(parts: &[Value]) -> bool
    ensures { result ≡ spec.some_function (trees_of parts.now) }
{
    for part in parts {
        if has_function(part) {
            return true;
        }
    }
    false
}
