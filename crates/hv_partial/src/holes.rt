// Holes: which trees have none, and what a tree leaves that moves out.

ghost use Rattle.std.specs.Prelude.{◌≡◌, IfOk, map};
ghost use Rattle.hv_partial.specs.HeldTree.{held_tree, held_trees};
ghost use Rattle.hv_value.specs.Holes as spec;

use crate::tree::Held;
use hv_items::Items;
use std::alloc::{AllocError as NoMemory, Global};

/// Whether no hole is in it.
#[cycle(is_whole)]
pub fn is_whole(held: &Held) -> bool
    ensures { result ≡ spec.is_whole (held_tree held.now) }
{
    match held {
        Held::Hole => false,
        Held::Int(_) | Held::Bool(_) => true,
        Held::Struct(parts) | Held::Array(parts) | Held::Fun(_, parts) => {
            all_whole(parts.as_slice())
        }
    }
}

#[cycle(is_whole)]
fn all_whole(parts: &[Held]) -> bool
    ensures { result ≡ spec.all_whole (held_trees parts.now) }
{
    for part in parts {
        if !is_whole(part) {
            return false;
        }
    }
    true
}

/// A hole for each leaf: for a number, a truth value, an array, a function and a struct without fields.
#[cycle(emptied)]
#[tactic(auto, using(crate::proofs::ListLemmas::all_emptied_row))]
pub fn emptied(alloc: Global, held: &Held) -> Result<Held, NoMemory>
    ensures { IfOk result (λ rest. held_tree rest ≡ spec.emptied (held_tree held.now)) }
{
    match held {
        Held::Struct(parts) if !parts.is_empty() => {
            Ok(Held::Struct(all_emptied(alloc, parts.as_slice())?))
        }
        _ => Ok(Held::Hole),
    }
}

#[cycle(emptied)]
fn all_emptied(alloc: Global, parts: &[Held]) -> Result<Items<Held>, NoMemory>
    ensures { IfOk result (λ rests. map held_tree rests ≡ map spec.emptied (map held_tree parts.now)) }
{
    let mut rests = Vec::with_capacity(alloc, parts.len())?;
    for part in parts {
        rests.push(emptied(alloc, part)?)?;
    }
    Ok(Items::from_vec(rests))
}
