// A worker's token for the stop word.

use crate::stop_view::StopView;
use atomic_table::Seat;
use std::marker::Model;

/// A worker's view of the stop word. Contracts see what it has seen there, what it set, and how
/// often it looked. It has no bytes.
#[derive(Drop)]
pub struct Watch<K> {
    pub(crate) seat: Seat<(), StopView<K>>,
}

impl<K> Model for Watch<K> {
    ghost use Rattle.hv_cell.specs.Tokens.{Watching};

    ghost Value = { Watching K };

    ghost use Rattle.hv_cell.specs.WatchRights.{watch_view, IsWatch};

    ghost view = { watch_view };

    ghost invariant = { IsWatch };
}
