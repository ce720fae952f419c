use crate::Place;

/// What a source may violate, in the order in which rules at one place are named.
#[derive(Clone, Copy, Debug, PartialEq, Eq, PartialOrd, Ord)]
pub enum Rule {
    /// The source has more than 1,048,576 bytes.
    L0,
    /// A byte sequence is not well-formed UTF-8, at its first byte.
    L1,
    /// No token, white space or comment begins with the character, as `@`.
    L2,
    /// A number is above the greatest Int, also behind `-`: `-9223372036854775808`.
    L3,
    /// No program goes on with this token.
    P1,
    /// The 101st open bracket.
    P2,
    /// A name is declared a second time.
    N1,
    /// A name stands for nothing that is visible.
    N2,
    /// There is no function `main` without parameters and result.
    N3,
    /// An expression hasn't the type that its position asks for.
    T1,
    /// The count of arguments differs from that of parameters.
    T2,
    /// A step names no field of the struct.
    T3,
    /// A struct contains itself, is too deep or has too many leaves.
    T4,
    /// An argument has a `&` too many or lacks one.
    T5,
    /// A name isn't used as what it is: a local value, a handle or a struct.
    T6,
    /// A change or a move of what may only be read, or a move out of an array.
    T7,
    /// A callee is a value that is no function.
    T8,
    /// A value that holds functions is printed, compared or captured.
    T9,
    /// A place is read, moved or lent while it isn't wholly initialised.
    I1,
    /// A place that is to be written back isn't wholly initialised at the end.
    I2,
    /// The end of a body with a result is reached.
    I3,
    /// A place is changed while an access that overlaps it is open.
    X1,
    /// A place is read while a changing access that overlaps it is open.
    X2,
    /// A handle's block ends while its task wasn't awaited.
    S1,
    /// A task is awaited a second time.
    S2,
    /// A task would change a place of its parent.
    S3,
}

/// A violated rule, and where.
#[derive(Clone, Copy, Debug, PartialEq, Eq)]
pub struct Refusal {
    pub rule: Rule,
    pub place: Place,
}

/// Which rules of exclusivity hold.
#[derive(Clone, Copy, Debug, PartialEq, Eq)]
pub enum Edition {
    /// An access is open to the end of its call or block.
    One,
}
