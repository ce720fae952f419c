/// Why a task trapped.
#[derive(Clone, Copy, Debug, PartialEq, Eq)]
pub enum TrapKind {
    /// A result isn't in the range of 64 bits.
    Overflow,
    /// Zero stands on the right of `/` or `%`.
    DivZero,
    /// An index is less than 0 or not below the length.
    Index,
    /// The length of `filled` is less than 0.
    BadLength,
    /// The length of `filled` is more than 1,048,576.
    TooLong,
    /// The budget of a spawn is less than 1.
    BadBudget,
    /// So many activations are open that no further one may be entered.
    TooDeep,
}

/// What there is no rule for. An accepted program never comes to it.
#[derive(Clone, Copy, Debug, PartialEq, Eq)]
pub enum Cause {
    /// A value of another kind than is asked for, or a name that stands for nothing.
    Kinds,
    /// A hole is read, a place isn't there, or a body ends without its result.
    Holes,
    /// Tasks have no rule yet.
    Tasks,
}
