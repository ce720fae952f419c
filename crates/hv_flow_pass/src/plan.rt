use crate::Act;
use hv_items::Items;

/// A word of a plan. A plan is a flow of acts written down with each operator before its parts.
#[derive(Drop)]
pub enum PassOp {
    Skip,
    /// The acts of an event, in order.
    Do(Items<Act>),
    /// The acts of an event with which the body is left.
    Stop(Items<Act>),
    Then,
    Either,
    Loop,
}
