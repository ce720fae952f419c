// What is around a part, and what its names stand for.
ghost use Rattle.std.specs.Prelude.{◌≡◌};
ghost use Rattle.std.specs.Option.{option_copied};
ghost use Rattle.hv_tree.specs.Core.{core_place};
ghost use Rattle.hv_decls.specs.Locals.{value_of};
ghost use Rattle.hv_scope.specs.Known.{option_local, typed};
ghost use Rattle.hv_type_synth.specs.Tests as tests;
ghost use Rattle.hv_type_synth.specs.Here as here;

use hv_scope::{Declared, Kind, Known, Visible, type_behind, value_type};
use hv_symbols::Texts;
use hv_tree::{Conv, Name, PlaceExpr, Step, Ty};

/// What is around a part of a body.
#[derive(Clone, Copy)]
pub struct Around<'a, 't> {
    pub declared: &'a Declared<'t>,
    /// The names of the structs whose values have function values in them.
    pub holding: &'a Texts<'t>,
    pub visible: &'a Visible<'t>,
    /// The result of the body.
    pub returned: &'t Option<Ty>,
}

/// The newest visible local with the name.
pub fn local_named<'t>(around: &Around<'_, 't>, name: &Name) -> Option<Known<'t>>
    ensures { option_local result ≡ here.local_named around.now name.now }
{
    around.visible.find(name.text.as_str())
}

/// Whether the name is that of a handle or of no local.
pub fn no_value(local: Option<Known<'_>>) -> bool
    ensures { result ≡ tests.no_value (option_local local.entry) }
{
    match local {
        Some(known) => is_handle_kind(known.kind),
        None => true,
    }
}

fn is_handle_kind(kind: Kind) -> bool
    ensures { result ≡ tests.is_handle_kind (here.kind_of kind) }
{
    match kind {
        Kind::Handle => true,
        Kind::Captured => false,
        Kind::Passed(_) => false,
        Kind::Var => false,
        Kind::Let => false,
        Kind::Inout => false,
    }
}

/// Whether the name is that of a handle; that of no local isn't.
pub fn is_handle(local: Option<Known<'_>>) -> bool
    ensures { result ≡ tests.is_handle (option_local local.entry) }
{
    match local {
        Some(known) => is_handle_kind(known.kind),
        None => false,
    }
}

/// Whether the name is that of no handle.
pub fn no_handle(local: Option<Known<'_>>) -> bool
    ensures { result ≡ tests.no_handle (option_local local.entry) }
{
    match local {
        Some(known) => !is_handle_kind(known.kind),
        None => true,
    }
}

fn is_read_only_kind(kind: Kind) -> bool
    ensures { result ≡ tests.is_read_only_kind (here.kind_of kind) }
{
    match kind {
        Kind::Captured => true,
        Kind::Passed(Conv::Let) => true,
        Kind::Let => true,
        _ => false,
    }
}

/// Whether it may only be read: a capture, a `let` parameter or a `let` binding.
pub fn is_read_only(local: Option<Known<'_>>) -> bool
    ensures { result ≡ tests.is_read_only (option_local local.entry) }
{
    match local {
        Some(known) => is_read_only_kind(known.kind),
        None => false,
    }
}

/// Whether the program has a struct with the name; locals aren't looked at.
pub fn is_struct_name(around: &Around<'_, '_>, name: &Name) -> bool
    ensures { result ≡ tests.is_struct_name (here.tree_in around.now) name.now }
{
    around.declared.find_struct(name.text.as_str()).is_some()
}

/// The type of a local value.
pub fn root_type<'t>(around: &Around<'_, 't>, root: &Name) -> Option<&'t Ty>
    ensures { typed (option_copied result) ≡ value_of (here.local_named around.now root.now) }
{
    match local_named(around, root) {
        Some(known) => value_type(&known),
        None => None,
    }
}

/// The type of a place with a local value as root.
#[tactic(auto, using(hv_tree::proofs::CoreLemmas::opened_place))]
pub fn place_type<'t>(around: &Around<'_, 't>, place: &PlaceExpr) -> Option<&'t Ty>
    ensures { typed (option_copied result) ≡ here.place_here around.now place.now }
{
    type_behind(
        around.declared,
        root_type(around, &place.root),
        place.steps.as_slice(),
    )
}

#[tactic(auto, using(hv_tree::proofs::CoreLemmas::step_field, hv_tree::proofs::CoreLemmas::step_index))]
fn is_index(step: &Step) -> bool
    ensures { result ≡ tests.has_index (here.one_step step.now) }
{
    match step {
        Step::Field(_) => false,
        Step::Index(_, _) => true,
    }
}

/// Whether one of them is an index, so that the place lies in an array.
pub fn has_index(steps: &[Step]) -> bool
    ensures { result ≡ tests.has_index (here.steps_of steps.now) }
{
    for step in steps {
        if is_index(step) {
            return true;
        }
    }
    false
}
