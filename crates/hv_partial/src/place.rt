// Places in a tree.

ghost use Rattle.std.specs.Prelude.{◌≡◌, IfOk, OnOk, OnErr, option_map};
ghost use Rattle.std.specs.Option.{option_copied};
ghost use Rattle.hv_partial.specs.HeldTree.{held_tree, held_trees};
ghost use Rattle.hv_value.specs.Places as spec;
ghost use Rattle.hv_value.specs.Holes.{clear};

use crate::holes::emptied;
use crate::tree::Held;
use hv_items::{Items, at};
use hv_value::PathStep;
use std::alloc::{AllocError as NoMemory, Global};
use std::mem;

/// What stands at a path, if the path fits the tree.
pub fn get<'a>(held: &'a Held, path: &[PathStep]) -> Option<&'a Held>
    ensures { option_map held_tree (option_copied result) ≡ spec.get (held_tree held.now) path.now }
{
    let mut place = held;
    for step in path {
        place = part(place, *step)?;
    }
    Some(place)
}

fn part(held: &Held, step: PathStep) -> Option<&Held>
    ensures { option_map held_tree (option_copied result) ≡ spec.part (held_tree held.now) step }
{
    match (step, held) {
        (PathStep::Field(k), Held::Struct(parts)) => nth(parts.as_slice(), k),
        (PathStep::At(k), Held::Array(parts)) => nth(parts.as_slice(), k),
        _ => None,
    }
}

#[tactic(auto, using(crate::proofs::ListLemmas::by_number))]
fn nth(parts: &[Held], k: u32) -> Option<&Held>
    ensures { option_map held_tree (option_copied result) ≡ spec.nth (held_trees parts.now) k }
{
    at(parts, k as usize)
}

/// Puts a tree at a path, and answers the one that stood there. Where the path doesn't fit all stays. It takes no memory.
pub fn replace(held: &mut Held, path: &[PathStep], new: Held) -> Option<Held>
    ensures old { option_map held_tree result ≡ spec.get (held_tree held.old) path.now }
    ensures new { held_tree held.new ≡ spec.put (held_tree held.old) path.now (held_tree new) }
{
    match path {
        [] => Some(mem::replace(held, new)),
        [step, rest @ ..] => {
            let mut inner = swap_part(held, *step, Held::Hole)?;
            let old = replace(&mut inner, rest, new);
            let _ = swap_part(held, *step, inner);
            old
        }
    }
}

/// Puts a tree at a path. Where the path doesn't fit all stays. It takes no memory.
pub fn put(held: &mut Held, path: &[PathStep], new: Held)
    ensures { held_tree held.new ≡ spec.put (held_tree held.old) path.now (held_tree new) }
{
    let _ = replace(held, path, new);
}

/// Takes what stands at a path, and leaves a hole for each of its leaves there.
pub fn take_out(alloc: Global, held: &mut Held, path: &[PathStep]) -> Result<Option<Held>, NoMemory>
    ensures value { IfOk result (λ taken. option_map held_tree taken ≡ spec.get (held_tree held.old) path.now) }
    ensures left { OnOk result (held_tree held.new ≡ clear (held_tree held.old) path.now) }
    ensures same { OnErr result (held.new ≡ held.old) }
{
    match get(held, path) {
        Some(there) => {
            let rest = emptied(alloc, there)?;
            Ok(replace(held, path, rest))
        }
        None => Ok(None),
    }
}

fn swap_part(held: &mut Held, step: PathStep, new: Held) -> Option<Held>
    ensures old { option_map held_tree result ≡ spec.part (held_tree held.old) step }
    ensures new { held_tree held.new ≡ spec.change_part (held_tree held.old) step (λ _. held_tree new) }
{
    match step {
        PathStep::Field(k) => swap_field(held, k, new),
        PathStep::At(k) => swap_element(held, k, new),
    }
}

fn swap_field(held: &mut Held, k: u32, new: Held) -> Option<Held>
    ensures old { option_map held_tree result ≡ spec.part (held_tree held.old) (PathStep.Field k) }
    ensures new { held_tree held.new ≡ spec.change_part (held_tree held.old) (PathStep.Field k) (λ _. held_tree new) }
{
    match held {
        Held::Struct(parts) => swap_nth(parts, k, new),
        _ => None,
    }
}

fn swap_element(held: &mut Held, k: u32, new: Held) -> Option<Held>
    ensures old { option_map held_tree result ≡ spec.part (held_tree held.old) (PathStep.At k) }
    ensures new { held_tree held.new ≡ spec.change_part (held_tree held.old) (PathStep.At k) (λ _. held_tree new) }
{
    match held {
        Held::Array(parts) => swap_nth(parts, k, new),
        _ => None,
    }
}

#[tactic(auto, using(crate::proofs::ListLemmas::by_number))]
fn swap_nth(parts: &mut Items<Held>, k: u32, new: Held) -> Option<Held>
    ensures old { option_map held_tree result ≡ spec.nth (held_trees parts.old) k }
    ensures new { held_trees parts.new ≡ spec.change_nth (held_trees parts.old) k (λ _. held_tree new) }
{
    if k as usize >= parts.len() {
        return None;
    }
    Some(parts.replace(k as usize, new))
}
