// What a body is entered with.

use hv_eval_state::Mode;
use hv_partial::Held;

/// What a body is entered with.
#[derive(Drop)]
pub enum Passed {
    /// Its own, with what the body may do with it.
    Value(Mode, Held),
    /// A reference of the caller, by its number.
    Lent(usize),
}
