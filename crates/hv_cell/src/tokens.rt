// The rights to a cell. Each is used once, so none is `Drop`: a call takes it, or `abandon`. A
// right is its cell's number, and has no other bytes.

use crate::cell_view::View;
use atomic_table::Badge;
use std::marker::Model;

/// A cell that nobody uses: `pair` takes it.
pub struct FreeCell<K> {
    pub(crate) cell: u32,
    pub(crate) badge: Badge<View<K>>,
}

impl<K> Model for FreeCell<K> {
    ghost use Rattle.hv_cell.specs.Tokens.{Vacancy};

    ghost Value = { Vacancy K };

    ghost use Rattle.hv_cell.specs.FreeRights.{free_view, IsFreeToken};

    ghost view = { free_view };

    ghost invariant = { IsFreeToken };
}

/// The right to bring the result of a task: `finish` or `unpair` takes it.
pub struct Finisher<K> {
    pub(crate) cell: u32,
    pub(crate) badge: Badge<View<K>>,
}

impl<K> Model for Finisher<K> {
    ghost use Rattle.hv_cell.specs.Tokens.{Right};

    ghost Value = { Right K };

    ghost use Rattle.hv_cell.specs.FinisherRights.{finisher_view, IsFinisherToken};

    ghost view = { finisher_view };

    ghost invariant = { IsFinisherToken };
}

/// The right to bring the stack that awaits a task: `park` or `unpair` takes it.
pub struct Awaiter<K> {
    pub(crate) cell: u32,
    pub(crate) badge: Badge<View<K>>,
}

impl<K> Model for Awaiter<K> {
    ghost use Rattle.hv_cell.specs.Tokens.{Right};

    ghost Value = { Right K };

    ghost use Rattle.hv_cell.specs.AwaiterRights.{awaiter_view, IsAwaiterToken};

    ghost view = { awaiter_view };

    ghost invariant = { IsAwaiterToken };
}

/// The seat of a party that came first, as its step left it: its view is spent, and no call
/// takes it.
#[derive(Drop)]
pub struct Parted<K> {
    pub(crate) badge: Badge<View<K>>,
}

impl<K> Model for Parted<K> {
    ghost use Rattle.hv_cell.specs.Tokens.{Gone};

    ghost Value = { Gone };

    ghost use Rattle.hv_cell.specs.PartedRights.{parted_view, IsParted};

    ghost view = { parted_view };

    ghost invariant = { IsParted };
}

impl<K> FreeCell<K> {
    /// Gives the cell up: nobody can use it any more.
    pub fn abandon(self) {
        let FreeCell { cell: _, badge: _ } = self;
    }

    /// Gives these cells up.
    pub fn abandon_all(mut cells: Vec<FreeCell<K>>) {
        while let Some(cell) = cells.pop() {
            cell.abandon();
        }
        cells.destroy_empty();
    }
}

impl<K> Finisher<K> {
    /// Gives the right up: the result never comes to the cell.
    pub fn abandon(self) {
        let Finisher { cell: _, badge: _ } = self;
    }
}

impl<K> Awaiter<K> {
    /// Gives the right up: the stack never comes to the cell.
    pub fn abandon(self) {
        let Awaiter { cell: _, badge: _ } = self;
    }
}
