ghost use Rattle.std.specs.Prelude.{◌≡◌, [], ◌∷◌, IfOk};

use hv_items::Items;
use hv_value::{PathStep, Value, clone_value, equal, get, has_function, put, size, text};
use std::alloc::{AllocError as NoMemory, Global};
use std::test::Fail;

fn pair(alloc: Global, left: Value, right: Value) -> Result<Items<Value>, NoMemory>
    ensures { IfOk result (λ parts. parts ≡ left ∷ right ∷ []) }
{
    let mut parts = Items::new(alloc);
    parts.push(left)?;
    parts.push(right)?;
    Ok(parts)
}

// The struct `(-1, [true, 20])`, of an array whose elements are of two types, which no program has.
fn sample(alloc: Global) -> Result<Value, NoMemory> {
    let array = Value::Array(pair(alloc, Value::Bool(true), Value::Int(20))?);
    Ok(Value::Struct(pair(alloc, Value::Int(-1), array)?))
}

#[test]
fn a_text_has_brackets_and_a_comma_with_a_space(rt: HostRuntime) -> Result<(), Fail> {
    let alloc = rt.alloc();
    for (value, want) in [
        (sample(alloc)?, "(-1, [true, 20])"),
        (Value::Struct(Items::new(alloc)), "()"),
        (Value::Array(Items::new(alloc)), "[]"),
        (Value::Bool(false), "false"),
        (Value::Int(i64::MIN), "-9223372036854775808"),
    ] {
        if !has_function(&value) {
            let bytes = text(&value, alloc)?;
            assert_eq!(rt; bytes.as_slice(), want.as_bytes(), "{want}");
        }
    }
    Ok(())
}

#[test]
fn the_limit_is_the_greatest_size_that_is_answered(rt: HostRuntime) -> Result<(), Fail> {
    let value = sample(rt.alloc())?;
    for (limit, want) in [
        (0, None),
        (1, None),
        (4, None),
        (5, Some(5)),
        (6, Some(5)),
        (u64::MAX, Some(5)),
    ] {
        assert_eq!(rt; size(&value, limit), want, "limit {limit}");
    }
    let empty = Value::Array(Items::new(rt.alloc()));
    assert_eq!(rt; size(&empty, 1), Some(1));
    Ok(())
}

#[test]
fn a_copy_is_equal_until_it_is_changed(rt: HostRuntime) -> Result<(), Fail> {
    let alloc = rt.alloc();
    let value = sample(alloc)?;
    let mut copy = clone_value(&value, alloc)?;
    assert!(rt; equal(&value, &copy));
    let _ = put(&mut copy, &[], Value::Int(7));
    assert!(rt; !equal(&value, &copy));
    Ok(())
}

#[test]
fn a_part_is_read(rt: HostRuntime) -> Result<(), Fail> {
    let parts = pair(rt.alloc(), Value::Int(1), Value::Int(2))?;
    let value = Value::Struct(parts);
    assert!(rt; equal(get(&value, &[PathStep::Field(1)]), &Value::Int(2)));
    Ok(())
}

#[test]
fn a_part_is_changed_and_the_old_one_answered(rt: HostRuntime) -> Result<(), Fail> {
    let alloc = rt.alloc();
    let parts = pair(alloc, Value::Int(1), Value::Int(2))?;
    let mut value = Value::Array(parts);
    let old = put(&mut value, &[PathStep::At(0)], Value::Int(7));
    let changed = Value::Array(pair(alloc, Value::Int(7), Value::Int(2))?);
    assert!(rt; equal(&old, &Value::Int(1)));
    assert!(rt; equal(&value, &changed));
    Ok(())
}
