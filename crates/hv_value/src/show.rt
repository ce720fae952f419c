// The text of a value.

ghost use Rattle.std.specs.Prelude.{◌≡◌, ◌++◌, IfOk, OnOk, IsFalse, string_bytes};
ghost use Rattle.hv_value.specs.ValueTree.{tree_of, trees_of};
ghost use Rattle.hv_value.specs.Equality.{has_function, some_function};
ghost use Rattle.hv_value.specs.Texts as spec;

use crate::value::Value;
use std::alloc::{AllocError as NoMemory, Global};

/// The text, as `(1, [true, false])`: struct in round brackets, array in square ones.
pub fn text(v: &Value, alloc: Global) -> Result<Vec<u8>, NoMemory>
    requires { IsFalse (has_function (tree_of v.now)) }
    ensures { IfOk result (λ bytes. bytes.items ≡ spec.text (tree_of v.now)) }
{
    let mut out = String::new(alloc);
    push_text(&mut out, v)?;
    Ok(out.into_bytes())
}

#[cycle(show)]
fn push_text(out: &mut String, v: &Value) -> Result<(), NoMemory>
    requires { IsFalse (has_function (tree_of v.now)) }
    ensures { OnOk result (string_bytes out.new ≡ string_bytes out.old ++ spec.text (tree_of v.now)) }
{
    match v {
        Value::Int(i) => write!(out, "{i}"),
        Value::Bool(b) => out.push_str(if *b { "true" } else { "false" }),
        Value::Struct(parts) => {
            out.push_str("(")?;
            push_texts(out, parts.as_slice())?;
            out.push_str(")")
        }
        Value::Array(parts) => {
            out.push_str("[")?;
            push_texts(out, parts.as_slice())?;
            out.push_str("]")
        }
        Value::Fun(_, _) => unreachable!(),
    }
}

#[cycle(show)]
fn push_texts(out: &mut String, parts: &[Value]) -> Result<(), NoMemory>
    requires { IsFalse (some_function (trees_of parts.now)) }
    ensures { OnOk result (string_bytes out.new ≡ string_bytes out.old ++ spec.joined (trees_of parts.now)) }
{
    match parts {
        [] => Ok(()),
        [first, rest @ ..] => {
            push_text(out, first)?;
            for part in rest {
                out.push_str(", ")?;
                push_text(out, part)?;
            }
            Ok(())
        }
    }
}
