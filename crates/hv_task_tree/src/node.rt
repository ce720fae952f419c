use hv_items::Items;
use hv_partial::Held;
use hv_sem_copying::TrapKind;
use hv_tree::Place;

/// How a task ended.
#[derive(Drop)]
pub enum End {
    /// With this value; a function without result gives the struct without parts.
    Done(Held),
    Trap(TrapKind, Place),
    /// At the place of what could not be paid.
    Spent(Place),
}

/// What the root did. It has no children: so far no program that runs has tasks.
#[derive(Drop)]
pub struct TaskNode {
    pub used: u64,
    pub end: End,
    pub output: Items<u8>,
}
