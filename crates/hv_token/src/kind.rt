// The token that a piece is.
ghost use Rattle.std.specs.Prelude.{◌≡◌, ◌<◌, ◌≤◌, IfOk, MatchOption, pos};
ghost use Rattle.hv_token.specs.Characters.{is_keyword};
ghost use Rattle.hv_token.specs.Pieces.{value_of, word_kind};
ghost use Rattle.hv_token.specs.Lexes.{greatest};
ghost use Rattle.hv_token.specs.Cutting.{Adds};

use crate::piece::Sort;
use hv_items::Items;
use hv_tree::{Place, Text, Token, TokenKind};
use std::alloc::{AllocError as NoMemory, Global};

const GREATEST: u64 = 9_223_372_036_854_775_807;

#[tactic(auto, unfolding(crate::specs::Characters::is_keyword))]
fn is_keyword(word: &str) -> bool
    ensures { result ≡ is_keyword word.now }
{
    matches!(
        word,
        "Bool"
            | "Int"
            | "await"
            | "count"
            | "else"
            | "false"
            | "filled"
            | "for"
            | "fun"
            | "if"
            | "in"
            | "inout"
            | "let"
            | "print"
            | "return"
            | "set"
            | "sink"
            | "spawn"
            | "struct"
            | "task"
            | "true"
            | "var"
            | "while"
    )
}

// The number that digits stand for, if it isn't too great.
fn number_value(digits: &[u8]) -> Option<i64>
    ensures { MatchOption result (greatest < value_of digits.now) (λ n. (n ≡ pos (value_of digits.now)) × (value_of digits.now ≤ greatest)) }
{
    let mut value = 0;
    for digit in digits {
        if value > GREATEST / 10 {
            return None;
        }
        let next = 10 * value + u64::from(digit.saturating_sub(b'0'));
        if next > GREATEST {
            return None;
        }
        value = next;
    }
    Some(value as i64)
}

fn copied(alloc: Global, text: &str) -> Result<Text, NoMemory>
    ensures { IfOk result (λ t. t ≡ text.now) }
{
    Ok(Text::from_string(String::from_str(alloc, text)?))
}

fn word_kind(alloc: Global, word: &str) -> Result<TokenKind, NoMemory>
    ensures { IfOk result (λ kind. kind ≡ word_kind word.now) }
{
    let text = copied(alloc, word)?;
    if is_keyword(word) {
        Ok(TokenKind::Keyword(text))
    } else {
        Ok(TokenKind::Word(text))
    }
}

// Adds the token that the piece is, or answers that its number is too great.
pub(crate) fn push_piece(
    alloc: Global,
    tokens: &mut Items<Token>,
    sort: Sort,
    piece: &str,
    place: Place,
) -> Result<bool, NoMemory>
    ensures { IfOk result (Adds sort piece.now place.start tokens.old tokens.new) }
{
    let kind = match sort {
        Sort::Blank => return Ok(true),
        Sort::Word => word_kind(alloc, piece)?,
        Sort::Number => {
            let Some(value) = number_value(piece.as_bytes()) else {
                return Ok(false);
            };
            TokenKind::Number(value)
        }
        Sort::Mark => TokenKind::Mark(copied(alloc, piece)?),
    };
    tokens.push(Token { kind, place })?;
    Ok(true)
}
