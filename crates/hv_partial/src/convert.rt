// Trees without holes as values, and back.

ghost use Rattle.std.specs.Prelude.{◌≡◌, IfOk, map};
ghost use Rattle.hv_value.specs.ValueTree.{tree_of, trees_of, value_of, values_of};
ghost use Rattle.hv_partial.specs.HeldTree.{held_tree, held_trees};

use crate::tree::Held;
use hv_items::Items;
use hv_value::Value;
use std::alloc::{AllocError as NoMemory, Global};

/// The value that the tree is, where it has no hole.
#[cycle(to_value)]
pub fn to_value(alloc: Global, held: &Held) -> Result<Option<Value>, NoMemory>
    ensures { IfOk result (λ value. value ≡ value_of (held_tree held.now)) }
{
    match held {
        Held::Hole => Ok(None),
        Held::Int(i) => Ok(Some(Value::Int(*i))),
        Held::Bool(b) => Ok(Some(Value::Bool(*b))),
        Held::Struct(parts) => Ok(to_values(alloc, parts.as_slice())?.map(Value::Struct)),
        Held::Array(parts) => Ok(to_values(alloc, parts.as_slice())?.map(Value::Array)),
        Held::Fun(body, captures) => match to_values(alloc, captures.as_slice())? {
            Some(values) => Ok(Some(Value::Fun(*body, values))),
            None => Ok(None),
        },
    }
}

#[cycle(to_value)]
#[tactic(auto, unfolding(crate::proofs::ListLemmas::behind_values), using(crate::proofs::ListLemmas::behind_none, crate::proofs::ListLemmas::behind_one))]
fn to_values(alloc: Global, parts: &[Held]) -> Result<Option<Items<Value>>, NoMemory>
    ensures { IfOk result (λ values. values ≡ values_of (held_trees parts.now)) }
{
    let mut values = Vec::with_capacity(alloc, parts.len())?;
    for part in parts {
        match to_value(alloc, part)? {
            Some(value) => values.push(value)?,
            None => return Ok(None),
        }
    }
    Ok(Some(Items::from_vec(values)))
}

/// The tree of a value.
#[cycle(of_value)]
pub fn of_value(alloc: Global, value: &Value) -> Result<Held, NoMemory>
    ensures { IfOk result (λ held. held_tree held ≡ tree_of value.now) }
{
    match value {
        Value::Int(i) => Ok(Held::Int(*i)),
        Value::Bool(b) => Ok(Held::Bool(*b)),
        Value::Struct(parts) => Ok(Held::Struct(of_values(alloc, parts.as_slice())?)),
        Value::Array(parts) => Ok(Held::Array(of_values(alloc, parts.as_slice())?)),
        Value::Fun(body, captures) => Ok(Held::Fun(*body, of_values(alloc, captures.as_slice())?)),
    }
}

#[cycle(of_value)]
fn of_values(alloc: Global, parts: &[Value]) -> Result<Items<Held>, NoMemory>
    ensures { IfOk result (λ held. map held_tree held ≡ map tree_of parts.now) }
{
    let mut held = Vec::with_capacity(alloc, parts.len())?;
    for part in parts {
        held.push(of_value(alloc, part)?)?;
    }
    Ok(Items::from_vec(held))
}
