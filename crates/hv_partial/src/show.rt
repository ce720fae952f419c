// The text of a tree.

ghost use Rattle.std.specs.Prelude.{◌≡◌, ◌++◌, IfOk, OnOk, string_bytes};
ghost use Rattle.hv_partial.specs.HeldTree.{held_tree, held_trees};
ghost use Rattle.hv_value.specs.Texts as spec;

use crate::tree::Held;
use std::alloc::{AllocError as NoMemory, Global};

/// The text, as `(1, [true, false])`: struct in round brackets, array in square ones. Holes and functions have none.
pub fn text(alloc: Global, held: &Held) -> Result<Vec<u8>, NoMemory>
    ensures { IfOk result (λ bytes. bytes.items ≡ spec.text (held_tree held.now)) }
{
    let mut out = String::new(alloc);
    push_text(&mut out, held)?;
    Ok(out.into_bytes())
}

#[cycle(show)]
fn push_text(out: &mut String, held: &Held) -> Result<(), NoMemory>
    ensures { OnOk result (string_bytes out.new ≡ string_bytes out.old ++ spec.text (held_tree held.now)) }
{
    match held {
        Held::Int(i) => write!(out, "{i}"),
        Held::Bool(b) => out.push_str(if *b { "true" } else { "false" }),
        Held::Struct(parts) => {
            out.push_str("(")?;
            push_texts(out, parts.as_slice())?;
            out.push_str(")")
        }
        Held::Array(parts) => {
            out.push_str("[")?;
            push_texts(out, parts.as_slice())?;
            out.push_str("]")
        }
        Held::Hole | Held::Fun(_, _) => Ok(()),
    }
}

#[cycle(show)]
fn push_texts(out: &mut String, parts: &[Held]) -> Result<(), NoMemory>
    ensures { OnOk result (string_bytes out.new ≡ string_bytes out.old ++ spec.joined (held_trees parts.now)) }
{
    match parts {
        [] => Ok(()),
        [first, rest @ ..] => {
            push_text(out, first)?;
            for part in rest {
                out.push_str(", ")?;
                push_text(out, part)?;
            }
            Ok(())
        }
    }
}
