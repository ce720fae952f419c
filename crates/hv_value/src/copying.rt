// Copies of values.

ghost use Rattle.std.specs.Prelude.{◌≡◌, IfOk};

use crate::value::Value;
use hv_items::Items;
use std::alloc::{AllocError as NoMemory, Global};

/// A value equal to this one.
#[cycle(clone)]
pub fn clone_value(v: &Value, alloc: Global) -> Result<Value, NoMemory>
    ensures { IfOk result (λ copy. copy ≡ v.now) }
{
    match v {
        Value::Int(i) => Ok(Value::Int(*i)),
        Value::Bool(b) => Ok(Value::Bool(*b)),
        Value::Struct(parts) => Ok(Value::Struct(clone_all(parts.as_slice(), alloc)?)),
        Value::Array(parts) => Ok(Value::Array(clone_all(parts.as_slice(), alloc)?)),
        Value::Fun(body, captures) => Ok(Value::Fun(*body, clone_all(captures.as_slice(), alloc)?)),
    }
}

#[cycle(clone)]
fn clone_all(parts: &[Value], alloc: Global) -> Result<Items<Value>, NoMemory>
    ensures { IfOk result (λ copies. copies ≡ parts.now) }
{
    let mut copies = Vec::with_capacity(alloc, parts.len())?;
    for part in parts {
        copies.push(clone_value(part, alloc)?)?;
    }
    Ok(Items::from_vec(copies))
}
