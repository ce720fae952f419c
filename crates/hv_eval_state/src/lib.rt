//! A task under way, and each step on its steps, its output and its locals.
#![tactic(auto)]

mod access;
mod compute;
mod local;
mod paid;
mod spot;
mod task;

pub use access::{Access, Mode, close, close_all, open};
pub use compute::{binary, decides, number, print, truth, unary};
pub use local::{drop_local, set_local};
pub use paid::{pay, pay_size, say};
pub use spot::{Spot, copy_there, look, put_there, take_there};
pub use task::{Halt, Task};
