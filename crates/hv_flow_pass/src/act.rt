use hv_tree::Refusal;

/// The cells from one on, so many of them.
#[derive(Clone, Copy, Debug, PartialEq, Eq)]
pub struct Range {
    pub from: u32,
    pub count: u32,
}

/// What a part of an event does. Each cell is a yes or a no.
#[derive(Clone, Copy, Debug, PartialEq, Eq)]
pub enum Act {
    /// Each of the cells gets the value.
    Set(Range, bool),
    /// None of the cells may have the value; they stay as they are.
    Refuse(Range, bool, Refusal),
}
