use hv_items::Items;
use hv_rules::FlowEvent;
use hv_tree::Place;

/// What may happen in a body: the walks from the first node on.
#[derive(Drop)]
pub struct FlowGraph {
    pub nodes: Items<Node>,
}

/// An event of a body, and its place in the source.
#[derive(Drop)]
pub struct Node {
    pub event: FlowEvent,
    pub place: Place,
    /// The numbers of the nodes that may come next.
    pub next: Items<u32>,
}
