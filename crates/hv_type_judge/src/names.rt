// What names stand for, and what may be done with them.
ghost use Rattle.std.specs.Prelude.{◌≡◌, ◌++◌, OnOk};
ghost use Rattle.hv_tree.specs.Core.{NoSteps};
ghost use Rattle.hv_decls.specs.Locals.{value_of};
ghost use Rattle.hv_type_rules.specs.Typing as typing;
ghost use Rattle.hv_type_synth.specs.Tests as tests;
ghost use Rattle.hv_type_synth.specs.Here as here;
ghost use Rattle.hv_type_judge.specs.Seen as seen;
ghost use Rattle.hv_type_judge.specs.Judged as spec;

use crate::refuse::refuse_if;
use hv_tree::{Expr, ExprKind, Name, PlaceExpr, Refusal, Rule};
use hv_type_synth::{
    Around, has_index, is_handle, is_read_only, is_struct_name, known, known_to_hold, local_named,
    no_function, no_handle, no_value, place_type, root_type,
};
use std::alloc::AllocError as NoMemory;

// A root that has to be a local value.
pub(crate) fn check_root(
    around: &Around<'_, '_>,
    found: &mut Vec<Refusal>,
    root: &Name,
) -> Result<(), NoMemory>
    ensures { OnOk result (found.new.items ≡ found.old.items ++ seen.root_t6 around.now root.now) }
{
    refuse_if(
        found,
        no_value(local_named(around, root)),
        Rule::T6,
        root.place,
    )
}

// A root of what is changed.
pub(crate) fn check_changed(
    around: &Around<'_, '_>,
    found: &mut Vec<Refusal>,
    root: &Name,
) -> Result<(), NoMemory>
    ensures { OnOk result (found.new.items ≡ found.old.items ++ seen.root_t7 around.now root.now) }
{
    refuse_if(
        found,
        is_read_only(local_named(around, root)),
        Rule::T7,
        root.place,
    )
}

fn check_alone(
    around: &Around<'_, '_>,
    found: &mut Vec<Refusal>,
    root: &Name,
) -> Result<(), NoMemory>
    ensures { OnOk result (found.new.items ≡ found.old.items ++ spec.read_t6 (here.tree_in around.now) (here.holding_in around.now) (here.scope_in around.now) root.now NoSteps) }
{
    let local = local_named(around, root);
    refuse_if(
        found,
        is_handle(local) || (no_value(local) && is_struct_name(around, root)),
        Rule::T6,
        root.place,
    )
}

// A place as a value.
#[tactic(auto, using(hv_tree::proofs::CoreLemmas::opened_place, crate::proofs::Roots::read_alone, crate::proofs::Roots::read_behind))]
pub(crate) fn check_read(
    around: &Around<'_, '_>,
    found: &mut Vec<Refusal>,
    place: &PlaceExpr,
) -> Result<(), NoMemory>
    ensures { OnOk result (found.new.items ≡ found.old.items ++ seen.read_t6 around.now place.now) }
{
    if place.steps.is_empty() {
        check_alone(around, found, &place.root)
    } else {
        check_root(around, found, &place.root)
    }
}

fn check_no_handle(
    around: &Around<'_, '_>,
    found: &mut Vec<Refusal>,
    root: &Name,
) -> Result<(), NoMemory>
    ensures { OnOk result (found.new.items ≡ found.old.items ++ spec.callee_t6 (here.tree_in around.now) (here.holding_in around.now) (here.scope_in around.now) root.now NoSteps) }
{
    refuse_if(
        found,
        is_handle(local_named(around, root)),
        Rule::T6,
        root.place,
    )
}

// A callee.
#[tactic(auto, using(hv_tree::proofs::CoreLemmas::opened_place, crate::proofs::Roots::callee_alone, crate::proofs::Roots::callee_behind))]
pub(crate) fn check_callee(
    around: &Around<'_, '_>,
    found: &mut Vec<Refusal>,
    callee: &PlaceExpr,
) -> Result<(), NoMemory>
    ensures { OnOk result (found.new.items ≡ found.old.items ++ seen.callee_t6 around.now callee.now) }
{
    if callee.steps.is_empty() {
        check_no_handle(around, found, &callee.root)
    } else {
        check_root(around, found, &callee.root)
    }
}

// A callee that is a value.
#[tactic(auto, using(crate::proofs::Roots::root_of))]
pub(crate) fn check_called(
    around: &Around<'_, '_>,
    found: &mut Vec<Refusal>,
    callee: &PlaceExpr,
) -> Result<(), NoMemory>
    ensures { OnOk result (found.new.items ≡ found.old.items ++ seen.callee_t8 around.now callee.now) }
{
    refuse_if(
        found,
        no_function(place_type(around, callee)),
        Rule::T8,
        callee.root.place,
    )
}

// What is awaited.
pub(crate) fn check_awaited(
    around: &Around<'_, '_>,
    found: &mut Vec<Refusal>,
    handle: &Name,
) -> Result<(), NoMemory>
    ensures { OnOk result (found.new.items ≡ found.old.items ++ seen.await_t6 around.now handle.now) }
{
    refuse_if(
        found,
        no_handle(local_named(around, handle)),
        Rule::T6,
        handle.place,
    )
}

// Captured names that are handles.
pub(crate) fn check_captures(
    around: &Around<'_, '_>,
    found: &mut Vec<Refusal>,
    captures: &[Name],
) -> Result<(), NoMemory>
    ensures { OnOk result (found.new.items ≡ found.old.items ++ seen.capture_t6 around.now captures.now) }
{
    for name in captures {
        refuse_if(
            found,
            is_handle(local_named(around, name)),
            Rule::T6,
            name.place,
        )?;
    }
    Ok(())
}

fn captured_holds(around: &Around<'_, '_>, name: &Name) -> bool
    ensures { result ≡ tests.known_to_hold (here.holding_in around.now) (typing.known (value_of (here.local_named around.now name.now))) }
{
    known_to_hold(around.holding, known(root_type(around, name)))
}

// Captured function values.
pub(crate) fn check_captured(
    around: &Around<'_, '_>,
    found: &mut Vec<Refusal>,
    captures: &[Name],
) -> Result<(), NoMemory>
    ensures { OnOk result (found.new.items ≡ found.old.items ++ seen.capture_t9 around.now captures.now) }
{
    for name in captures {
        refuse_if(found, captured_holds(around, name), Rule::T9, name.place)?;
    }
    Ok(())
}

// Whether a place may not be moved.
#[tactic(auto, using(hv_tree::proofs::CoreLemmas::opened_place))]
fn stays(around: &Around<'_, '_>, place: &PlaceExpr) -> bool
    ensures { result ≡ seen.stays around.now place.now }
{
    let local = local_named(around, &place.root);
    !no_value(local) && (is_read_only(local) || has_index(place.steps.as_slice()))
}

// What is moved.
#[tactic(auto, using(crate::proofs::Roots::moved_opened, hv_lemmas::proofs::Lists::nothing, hv_tree::specs::declared::ast::Arg::TheViews::the_lemmas), unfolding(crate::proofs::Roots::moved_by))]
pub(crate) fn check_moved(
    around: &Around<'_, '_>,
    found: &mut Vec<Refusal>,
    x: &Expr,
) -> Result<(), NoMemory>
    ensures { OnOk result (found.new.items ≡ found.old.items ++ seen.move_t7 around.now x.now) }
{
    match &x.kind {
        ExprKind::Path(place) => {
            refuse_if(found, stays(around, place), Rule::T7, place.root.place)
        }
        _ => Ok(()),
    }
}
