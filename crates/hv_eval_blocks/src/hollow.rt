// What a variable holds that is declared without a value.

ghost use Rattle.std.specs.Prelude.{◌≡◌, IfOk, map};
ghost use Rattle.hv_tree.specs.Core.{core_tree, core_ty};
ghost use Rattle.hv_sem_copying.specs.Places as places;
ghost use Rattle.hv_partial.specs.HeldTree.{held_tree};
ghost use Rattle.hv_value.specs.Holes.{fields_or_hole};
ghost use Rattle.hv_value.specs.ValueTree.{row};
ghost use Rattle.hv_eval_blocks.specs.Hollows.{hollow_in, hollow_field};

use hv_items::Items;
use hv_partial::Held;
use hv_scope::Declared;
use hv_tree::{Field, Ty};
use std::alloc::{AllocError as NoMemory, Global};

/// A hole for each leaf of the type.
#[tactic(auto, unfolding(crate::specs::Hollows::hollow_in))]
pub fn holes<'t>(alloc: Global, declared: &Declared<'t>, ty: &Ty) -> Result<Held, NoMemory>
    ensures { IfOk result (λ held. held_tree held ≡ places.holes (core_tree declared.now) (core_ty ty.now)) }
{
    holes_within(alloc, declared, 100, ty)
}

#[cycle(holes)]
#[tactic(auto, using(crate::proofs::HollowLemmas::by_type))]
fn holes_within<'t>(
    alloc: Global,
    declared: &Declared<'t>,
    depth: u32,
    ty: &Ty,
) -> Result<Held, NoMemory>
    ensures { IfOk result (λ held. held_tree held ≡ hollow_in (core_tree declared.now) depth ty.now) }
{
    if depth == 0 {
        return Ok(Held::Hole);
    }
    match ty {
        Ty::Named(name) => match declared.find_struct(name.text.as_str()) {
            Some(found) => {
                let parts = holes_of_fields(alloc, declared, depth - 1, found.fields.as_slice())?;
                Ok(struct_or_hole(parts))
            }
            None => Ok(Held::Hole),
        },
        _ => Ok(Held::Hole),
    }
}

#[cycle(holes)]
fn holes_of_fields<'t>(
    alloc: Global,
    declared: &Declared<'t>,
    depth: u32,
    fields: &[Field],
) -> Result<Items<Held>, NoMemory>
    ensures { IfOk result (λ parts. map held_tree parts ≡ map (hollow_field (core_tree declared.now) depth) fields.now) }
{
    let mut parts = Items::new(alloc);
    for field in fields {
        parts.push(holes_within(alloc, declared, depth, &field.ty)?)?;
    }
    Ok(parts)
}

// A struct without fields is a leaf.
#[tactic(auto, using(crate::proofs::HollowLemmas::by_parts))]
fn struct_or_hole(parts: Items<Held>) -> Held
    ensures { held_tree result ≡ fields_or_hole (row (map held_tree parts)) }
{
    if parts.is_empty() {
        Held::Hole
    } else {
        Held::Struct(parts)
    }
}
