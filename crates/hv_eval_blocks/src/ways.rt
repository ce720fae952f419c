// How statements leave their block or a loop, or go on.

ghost use Rattle.std.specs.Prelude.{◌≡◌};
ghost use Rattle.hv_eval_blocks.specs.Statements.{flowed_by};

use hv_eval_state::{Access, Halt};
use hv_partial::Held;

/// What comes after a statement.
#[derive(Drop)]
pub enum Went {
    /// The block is left with the value of a Return.
    Leaves(Held),
    Goes,
    /// The block goes on, and the access is open up to its end.
    Opens(Access),
}

/// What a block comes to before its accesses close.
#[derive(Drop)]
pub struct Ended {
    /// The value of a Return, if one was met.
    pub flow: Option<Held>,
    /// The last one opened is at the end.
    pub opened: Vec<Access>,
}

/// What comes after a turn of a loop.
#[derive(Drop)]
pub enum Turn {
    Again,
    /// The loop ends, with the value of a Return if one was met.
    Ends(Option<Held>),
}

/// A Return leaves each block around it.
pub fn flowed(flow: Result<Option<Held>, Halt>) -> Result<Went, Halt>
    ensures { result ≡ flowed_by flow }
{
    match flow {
        Ok(Some(held)) => Ok(Went::Leaves(held)),
        Ok(None) => Ok(Went::Goes),
        Err(halt) => Err(halt),
    }
}
