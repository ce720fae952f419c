// What a local holds.

use hv_items::Items;

/// What a local holds, and any value while it is computed: a tree in which holes may stand.
#[derive(Drop)]
pub enum Held {
    Hole,
    Int(i64),
    Bool(bool),
    Struct(Items<Held>),
    Array(Items<Held>),
    /// The number of a body, and the captures.
    Fun(u32, Items<Held>),
}
