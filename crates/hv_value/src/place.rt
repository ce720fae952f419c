// Places in a value.

ghost use Rattle.std.specs.Prelude.{◌≡◌, IsSome, Some};
ghost use Rattle.hv_value.specs.ValueTree.{tree_of, trees_of};
ghost use Rattle.hv_value.specs.Places as spec;

use crate::value::{PathStep, Value};
use hv_items::{Items, at};
use std::mem;

/// What stands at a path that fits the value.
pub fn get<'a>(v: &'a Value, path: &[PathStep]) -> &'a Value
    requires { IsSome (spec.get (tree_of v.now) path.now) }
    ensures { spec.get (tree_of v.now) path.now ≡ Some (tree_of result.now) }
{
    let mut place = v;
    for step in path {
        place = part(place, *step);
    }
    place
}

fn part(v: &Value, step: PathStep) -> &Value
    requires { IsSome (spec.part (tree_of v.now) step) }
    ensures { spec.part (tree_of v.now) step ≡ Some (tree_of result.now) }
{
    match (step, v) {
        (PathStep::Field(k), Value::Struct(parts)) => nth(parts.as_slice(), k),
        (PathStep::At(k), Value::Array(parts)) => nth(parts.as_slice(), k),
        _ => unreachable!(),
    }
}

#[tactic(auto, using(crate::proofs::StepLemmas::by_number))]
fn nth(parts: &[Value], k: u32) -> &Value
    requires { IsSome (spec.nth (trees_of parts.now) k) }
    ensures { spec.nth (trees_of parts.now) k ≡ Some (tree_of result.now) }
{
    match at(parts, k as usize) {
        Some(part) => part,
        None => unreachable!(),
    }
}

/// Puts a value at a path that fits, and answers the one that stood there. It takes no memory.
pub fn put(v: &mut Value, path: &[PathStep], new: Value) -> Value
    requires { IsSome (spec.get (tree_of v.old) path.now) }
    ensures old { spec.get (tree_of v.old) path.now ≡ Some (tree_of result) }
    ensures new { tree_of v.new ≡ spec.put (tree_of v.old) path.now (tree_of new) }
{
    match path {
        [] => mem::replace(v, new),
        [step, rest @ ..] => {
            let mut inner = swap_part(v, *step, Value::Bool(false));
            let old = put(&mut inner, rest, new);
            let _ = swap_part(v, *step, inner);
            old
        }
    }
}

fn swap_part(v: &mut Value, step: PathStep, new: Value) -> Value
    requires { IsSome (spec.part (tree_of v.old) step) }
    ensures old { spec.part (tree_of v.old) step ≡ Some (tree_of result) }
    ensures new { tree_of v.new ≡ spec.change_part (tree_of v.old) step (λ _. tree_of new) }
{
    match step {
        PathStep::Field(k) => swap_field(v, k, new),
        PathStep::At(k) => swap_element(v, k, new),
    }
}

fn swap_field(v: &mut Value, k: u32, new: Value) -> Value
    requires { IsSome (spec.part (tree_of v.old) (PathStep.Field k)) }
    ensures old { spec.part (tree_of v.old) (PathStep.Field k) ≡ Some (tree_of result) }
    ensures new { tree_of v.new ≡ spec.change_part (tree_of v.old) (PathStep.Field k) (λ _. tree_of new) }
{
    match v {
        Value::Struct(parts) => swap_nth(parts, k, new),
        _ => unreachable!(),
    }
}

fn swap_element(v: &mut Value, k: u32, new: Value) -> Value
    requires { IsSome (spec.part (tree_of v.old) (PathStep.At k)) }
    ensures old { spec.part (tree_of v.old) (PathStep.At k) ≡ Some (tree_of result) }
    ensures new { tree_of v.new ≡ spec.change_part (tree_of v.old) (PathStep.At k) (λ _. tree_of new) }
{
    match v {
        Value::Array(parts) => swap_nth(parts, k, new),
        _ => unreachable!(),
    }
}

#[tactic(auto, using(crate::proofs::StepLemmas::by_number))]
fn swap_nth(parts: &mut Items<Value>, k: u32, new: Value) -> Value
    requires { IsSome (spec.nth (trees_of parts.old) k) }
    ensures old { spec.nth (trees_of parts.old) k ≡ Some (tree_of result) }
    ensures new { trees_of parts.new ≡ spec.change_nth (trees_of parts.old) k (λ _. tree_of new) }
{
    parts.replace(k as usize, new)
}
