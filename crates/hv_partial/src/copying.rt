// Copies of trees.

ghost use Rattle.std.specs.Prelude.{◌≡◌, IfOk};

use crate::tree::Held;
use hv_items::Items;
use std::alloc::{AllocError as NoMemory, Global};

/// A tree equal to this one.
#[cycle(copy)]
pub fn copy(alloc: Global, held: &Held) -> Result<Held, NoMemory>
    ensures { IfOk result (λ copy. copy ≡ held.now) }
{
    match held {
        Held::Hole => Ok(Held::Hole),
        Held::Int(i) => Ok(Held::Int(*i)),
        Held::Bool(b) => Ok(Held::Bool(*b)),
        Held::Struct(parts) => Ok(Held::Struct(copy_all(alloc, parts.as_slice())?)),
        Held::Array(parts) => Ok(Held::Array(copy_all(alloc, parts.as_slice())?)),
        Held::Fun(body, captures) => Ok(Held::Fun(*body, copy_all(alloc, captures.as_slice())?)),
    }
}

#[cycle(copy)]
fn copy_all(alloc: Global, parts: &[Held]) -> Result<Items<Held>, NoMemory>
    ensures { IfOk result (λ copies. copies ≡ parts.now) }
{
    let mut copies = Vec::with_capacity(alloc, parts.len())?;
    for part in parts {
        copies.push(copy(alloc, part)?)?;
    }
    Ok(Items::from_vec(copies))
}
