// What an event sets in the cells.
ghost use Rattle.std.specs.Prelude.{◌≡◌, ◌++◌, ◌∷◌, [], false, OnOk};
ghost use Rattle.hv_rules.specs.States as states;
ghost use Rattle.hv_excl.specs.Access.{mode_by};
ghost use Rattle.hv_init_layout.specs.Laid.{laid};
ghost use Rattle.hv_flow_pass.specs.declared.act.Act.TheVariants as act;
ghost use Rattle.hv_init_cells.specs.Acts as spec;

use hv_decls::{StaticPath, has_index};
use hv_excl::{AccessMode, OpenAccess, Opened};
use hv_flow_pass::Act;
use hv_init_layout::Layout;
use hv_items::Items;
use hv_rules::FlowEvent;
use std::alloc::AllocError as NoMemory;

fn set_path(
    layout: &Layout<'_>,
    acts: &mut Items<Act>,
    path: &StaticPath,
    value: bool,
) -> Result<(), NoMemory>
    ensures { OnOk result (acts.new ≡ acts.old ++ spec.set_path (laid layout.now) path.now value) }
{
    if has_index(path.steps.as_slice()) {
        return Ok(());
    }
    let cells = layout.path_cells(path)?;
    acts.push(Act::Set(cells, value))
}

fn empty_local(layout: &Layout<'_>, acts: &mut Items<Act>, local: u32) -> Result<(), NoMemory>
    ensures { OnOk result (acts.new ≡ acts.old ++ act.Set ((laid layout.now).range_of local []) false ∷ []) }
{
    let cells = layout.local_cells(local)?;
    acts.push(Act::Set(cells, false))
}

fn close_access(
    layout: &Layout<'_>,
    acts: &mut Items<Act>,
    access: &OpenAccess<'_>,
) -> Result<(), NoMemory>
    ensures { OnOk result (acts.new ≡ acts.old ++ spec.set_by_mode (laid layout.now) access.now.path.now (mode_by access.now.mode)) }
{
    match access.mode {
        AccessMode::Reading | AccessMode::Writing => Ok(()),
        AccessMode::Setting => set_path(layout, acts, access.path, true),
    }
}

fn close_last(
    layout: &Layout<'_>,
    acts: &mut Items<Act>,
    opened: &Opened<'_>,
) -> Result<(), NoMemory>
    ensures { OnOk result (acts.new ≡ acts.old ++ spec.set_at_close (laid layout.now) (states.last_called opened.now)) }
{
    match opened.last_called() {
        Some(access) => close_access(layout, acts, &access),
        None => Ok(()),
    }
}

/// Adds what an event sets, where these accesses are open.
pub(crate) fn set(
    layout: &Layout<'_>,
    acts: &mut Items<Act>,
    opened: &Opened<'_>,
    event: &FlowEvent,
) -> Result<(), NoMemory>
    ensures { OnOk result (acts.new ≡ acts.old ++ spec.sets (laid layout.now) event.now opened.now) }
{
    match event {
        FlowEvent::Declare(local) => empty_local(layout, acts, *local),
        FlowEvent::Init(path) => set_path(layout, acts, path, true),
        FlowEvent::Move(path) | FlowEvent::OpenSet(path) => set_path(layout, acts, path, false),
        FlowEvent::Close => close_last(layout, acts, opened),
        _ => Ok(()),
    }
}
