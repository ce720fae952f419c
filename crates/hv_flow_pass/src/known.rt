use crate::asked::{Asks, Entry};
use hv_flow_versions::Versions;
use hv_items::Items;
use hv_tree::Refusal;

/// What the pass knows where it stands.
#[derive(Drop)]
pub struct Known {
    pub versions: Versions,
    /// What was asked in the innermost turn of a loop.
    pub asked: Asks,
    pub found: Option<Refusal>,
}

/// An operator some of whose parts aren't passed yet. The cells that wait for it are among the
/// versions.
#[derive(Drop)]
pub enum Frame {
    /// A `Then` in its first part.
    Before,
    /// An `Either` in its first part.
    OneSide,
    /// An `Either` in its second part.
    OtherSide,
    /// With what was asked around the loop.
    Turn(Items<Entry>),
}
