//! Join cells. Two parties come to a cell, each once.
//!
//! The finisher brings the result of a task, the awaiter the stack that waits for it. Each puts
//! its thing into a slot and then sets its bit in the cell's word; whoever reads the other's bit
//! is the later. The later party takes both things and the cell. The earlier one has nothing left
//! there, and looks for other work. docs/CELLS.md has the whole protocol.
#![tactic(auto)]

mod bring;
mod cell_plays;
mod cell_view;
mod cells;
mod joined;
mod make;
mod stop_plays;
mod stop_view;
mod stop_word;
mod tokens;
mod watches;
mod why;

pub use cells::{Cells, Finished, Parked};
pub use joined::Joined;
pub use tokens::{Awaiter, Finisher, FreeCell, Parted};
pub use watches::Watch;
pub use why::Why;
