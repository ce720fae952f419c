// What a call goes to.

use hv_items::Items;
use hv_partial::Held;

/// What a call goes to.
#[derive(Drop)]
pub enum Callee {
    /// A struct's name.
    Constructs,
    /// A body with the captures.
    Enters(u32, Items<Held>),
}
