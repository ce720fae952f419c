// Names and types as they are written.

use crate::{Place, Text};
use hv_items::{Boxed, Items};

/// A word of the source that is no keyword.
/// A name, and where it stands.
#[derive(Debug, Drop)]
pub struct Name {
    pub text: Text,
    pub place: Place,
}

/// How a parameter takes its argument (after Hylo).
#[derive(Clone, Copy, Debug, PartialEq, Eq)]
pub enum Conv {
    /// `let T` or `T`.
    /// Reads it in place.
    Let,
    /// `inout T`.
    /// Changes it in place.
    Inout,
    /// `sink T`.
    /// Takes it over.
    Sink,
    /// `set T`.
    /// Fills it.
    Set,
}

/// A type. The place is that of its first token.
#[derive(Drop)]
pub enum Ty {
    /// `Int`.
    Int(Place),
    /// `Bool`.
    Bool(Place),
    /// `P`, the name of a struct.
    Named(Name),
    /// `[T]`. The place of the `[`, and the type of the elements.
    Array(Place, Boxed<Ty>),
    /// `fun(Int, inout Int) -> T` or `fun()`. The place is that of the word `fun`.
    /// The conventions and types of the parameters, and the result.
    Fun(Place, Items<(Conv, Ty)>, Option<Boxed<Ty>>),
}
