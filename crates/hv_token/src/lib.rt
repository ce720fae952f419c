//! Source bytes as tokens, each the longest that begins there.
#![tactic(auto)]

mod class;
mod kind;
mod lexed;
mod piece;

pub use hv_tree::{Token, TokenKind};
pub use lexed::{Lexed, lex};
