use crate::{Place, Text};

/// What a token is, with its spelling where that isn't its value.
#[derive(Debug, Drop)]
pub enum TokenKind {
    /// `x`, `_y`: a name.
    Word(Text),
    /// `while`, `Int`, `true`.
    Keyword(Text),
    /// `7` by its value, which is never below 0 in a source.
    Number(i64),
    /// `(`, `==`, `->`, `&`.
    Mark(Text),
}

/// A token, and its first byte.
#[derive(Debug, Drop)]
pub struct Token {
    pub kind: TokenKind,
    pub place: Place,
}
