use hv_rules::FlowEvent;
use hv_tree::Place;

/// A word of a plan. A plan is a flow written down with each operator before its parts.
#[derive(Drop)]
pub enum FlowOp {
    /// Nothing happens; it has no parts.
    Skip,
    /// An event at its place, behind which the body goes on.
    Do(FlowEvent, Place),
    /// The event with which the body is left.
    Stop(FlowEvent, Place),
    /// The first of the two parts behind it, and then the second.
    Then,
    /// One of the two parts behind it.
    Either,
    /// The part behind it, any number of times.
    Loop,
}
