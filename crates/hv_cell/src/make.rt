// How cells are made: their table, and a seat for each.
ghost use Rattle.std.specs.Prelude.{◌≡◌, ◌*◌, ◌<◌, ◌≤◌, [], length, map, Some, All, IfOk, IfErr, replicate, vec_capacity};
ghost use Rattle.hv_cell.specs.declared.cell_view.Held.TheVariants.{Nothing};
ghost use Rattle.hv_cell.specs.declared.cell_view.Role.TheVariants.{Maker};
ghost use Rattle.hv_cell.specs.CellRule.{view, fresh};
ghost use Rattle.hv_cell.specs.Numbers.{numbers_below};

use crate::cell_plays::{CellName, MakeCell};
use crate::cell_view::{CellRule, Held, View};
use crate::joined::Joined;
use crate::stop_plays::Naming;
use crate::tokens::FreeCell;
use atomic_table::{Refused, Seat, Shared, Table};
use std::alloc::{AllocError as NoMemory, Global};
use std::marker::Brand;

pub(crate) type CellTable<P> = Table<
    Held<<P as Joined>::Done, <P as Joined>::Stack>,
    View<<P as Joined>::Kin>,
    <P as Joined>::Kin,
    CellRule<P>,
    Global,
>;

pub(crate) type Grid<P> = Shared<
    Held<<P as Joined>::Done, <P as Joined>::Stack>,
    View<<P as Joined>::Kin>,
    <P as Joined>::Kin,
    CellRule<P>,
>;

pub(crate) type Place<P> = Seat<
    Held<<P as Joined>::Done, <P as Joined>::Stack>,
    View<<P as Joined>::Kin>,
>;

// So many empty slots.
fn empty_slots<D, S>(alloc: Global, count: usize) -> Result<Vec<Held<D, S>>, NoMemory>
    ensures { IfOk result (λ v. v.items ≡ replicate count Nothing) }
{
    let mut slots = Vec::with_capacity(alloc, count)?;
    for _ in 0..count {
        slots.push_reserved(Held::Nothing);
    }
    Ok(slots)
}

// Empty slots are let go.
fn discard<D, S>(mut slots: Vec<Held<D, S>>)
    requires { slots.items ≡ replicate (length slots.items) Nothing }
{
    while let Some(slot) = slots.pop() {
        let Held::Nothing = slot else { unreachable!() };
    }
    slots.destroy_empty();
}

// A table of empty cells, and the maker's seat.
fn make_table<P: Joined>(
    alloc: Global,
    count: usize,
    kin: &P::Kin,
) -> Result<(CellTable<P>, Place<P>), NoMemory>
    requires { 0 < count }
    ensures sized { IfOk result (λ r. (r.0.shared.table_id.words ≡ count) × (r.0.shared.table_id.slots ≡ 2 * count)) }
    ensures kin { IfOk result (λ r. r.0.shared.key ≡ kin.now) }
    ensures seat { IfOk result (λ r. (r.1.table_id ≡ r.0.shared.table_id) × (r.1.me ≡ (fresh kin.now, []))) }
{
    let words = Vec::from_elem(alloc, 0u64, count)?;
    let slots = empty_slots(alloc, 2 * count)?;
    match Table::new(alloc, &words, slots, kin) {
        Ok(made) => Ok(made),
        Err(Refused { slots }) => {
            discard(slots);
            Err(NoMemory)
        }
    }
}

// The table of so many cells, and a free cell for each.
pub(crate) fn make_cells<P: Joined>(
    alloc: Global,
    cells: u32,
    kin: &P::Kin,
) -> Result<(CellTable<P>, Vec<FreeCell<P::Kin>>), NoMemory>
    requires { 0 < cells }
    ensures sized { IfOk result (λ r. (r.0.shared.table_id.words ≡ cells) × (r.0.shared.table_id.slots ≡ 2 * cells)) }
    ensures kin { IfOk result (λ r. r.0.shared.key ≡ kin.now) }
    ensures each { IfOk result (λ r. map (λ f. f.cell) r.1.items ≡ numbers_below cells) }
    ensures count { IfOk result (λ r. length r.1.items ≡ cells) }
    ensures own { IfOk result (λ r. All (λ f. f.home ≡ record { table = r.0.shared.table_id; kin = Some kin.now }) r.1.items) }
{
    let free = Vec::with_capacity(alloc, cells as usize)?;
    match make_table::<P>(alloc, cells as usize, kin) {
        Ok((table, seat)) => {
            let maker = name_cells::<P, Brand>(&table.shared, seat);
            let free = seat_cells::<P>(&table.shared, maker, cells, free);
            Ok((table, free))
        }
        Err(failed) => {
            free.destroy_empty();
            Err(failed)
        }
    }
}

fn name_cells<P: Joined, W: Naming>(grid: &Grid<P>, mut seat: Place<P>) -> Place<P>
    requires grid { 0 < grid.now.table_id.words }
    requires table { (seat.table_id ≡ grid.now.table_id) × (W.table ≡ seat.table_id) }
    requires fresh { seat.me ≡ (fresh grid.now.key, []) }
    ensures table { result.table_id ≡ seat.table_id }
    ensures maker { result.me ≡ (view Maker 0 [] grid.now.key seat.table_id, []) }
{
    grid.load::<CellName<W>>(&mut seat, 0);
    seat
}

#[tactic(auto, using(crate::proofs::Lists::map_snoc))]
fn seat_cells<P: Joined>(
    grid: &Grid<P>,
    mut maker: Place<P>,
    cells: u32,
    mut free: Vec<FreeCell<P::Kin>>,
) -> Vec<FreeCell<P::Kin>>
    requires grid { (0 < cells) × (cells ≡ grid.now.table_id.words) }
    requires table { maker.table_id ≡ grid.now.table_id }
    requires maker { maker.me ≡ (view Maker 0 [] grid.now.key maker.table_id, []) }
    requires room { (free.items ≡ []) × (cells ≤ vec_capacity free) }
    ensures each { map (λ f. f.cell) result.items ≡ numbers_below cells }
    ensures count { length result.items ≡ cells }
    ensures own { All (λ f. f.home ≡ record { table = grid.now.table_id; kin = Some grid.now.key }) result.items }
{
    for cell in 0..cells {
        let seat = grid.split_seat::<MakeCell>(&mut maker);
        let badge = seat.into_badge();
        free.push_reserved(FreeCell { cell, badge });
    }
    free
}
