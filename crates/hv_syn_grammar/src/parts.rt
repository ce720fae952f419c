use hv_tree::{Block, Branch};

/// A part of an `if` after its first block: one more test, or the last `else`.
#[derive(Drop)]
pub enum ElsePart {
    Test(Branch),
    Last(Block),
}
