ghost use Rattle.std.specs.Prelude.{◌≡◌, ◌<◌, List, Option, IfOk, length, take};
ghost use Rattle.std.specs.Str.Lossy.{utf8_valid_len};
ghost use Rattle.hv_tree.specs.declared.token.Token.{Token};
ghost use Rattle.hv_tree.specs.declared.refusal.Refusal.{Refusal};
ghost use Rattle.hv_token.specs.Lexes.{Lexes};
ghost use Rattle.hv_token.specs.Reading.{stop_behind, Reads, IsBehindMark};

use crate::kind::push_piece;
use crate::piece::{first_char, first_piece};
use hv_items::Items;
use hv_tree::{Place, Refusal, Rule, Token};
use std::alloc::{AllocError as NoMemory, Global};
use std::str;

const MOST_BYTES: usize = 1_048_576;

const BYTE_ORDER_MARK: char = '\u{feff}';

/// The tokens of a source up to its first lexical refusal.
#[derive(Debug, Drop)]
pub struct Lexed {
    pub tokens: Items<Token>,
    /// The first lexical refusal, or none where the whole source is tokens, white space and comments.
    pub stop: Option<Refusal>,
    /// The source's length.
    pub end: Place,
}

fn refused(rule: Rule, at: usize) -> Option<Refusal>
    requires { at < 4294967296 }
    ensures { result ≡ Some (record { rule = rule; place = record { start = at } }) }
{
    let place = Place { start: at as u32 };
    Some(Refusal { rule, place })
}

// The longest front that is well-formed.
fn well_formed_front(source: &[u8]) -> &str
    ensures { result.now ≡ take (utf8_valid_len source.now) source.now }
{
    match str::from_utf8(source) {
        Ok(text) => text,
        Err(error) => match str::from_utf8(&source[..error.valid_up_to()]) {
            Ok(front) => front,
            Err(_) => unreachable!(),
        },
    }
}

// What stands behind a byte order mark at the front.
#[tactic(auto, using(crate::proofs::Turns::mark_there, crate::proofs::Turns::mark_not_there, crate::proofs::Turns::no_mark))]
fn behind_mark(text: &str) -> &str
    ensures { IsBehindMark text.now result.now }
{
    let Some((first, after)) = first_char(text) else {
        return text;
    };
    if first == BYTE_ORDER_MARK {
        after
    } else {
        text
    }
}

// The tokens of a text up to the first place where no piece begins or a number is too great.
fn lex_text(alloc: Global, text: &str) -> Result<(Items<Token>, Option<Refusal>), NoMemory>
    requires { length text.now < 4294967296 }
    ensures { IfOk result (λ read. Reads text.now read.0 read.1) }
{
    // room for three tokens in four bytes, which few sources pass; what isn't used is never touched
    let mut tokens = Items::from_vec(Vec::with_capacity(alloc, text.len() / 4 * 3)?);
    let mut rest = behind_mark(text);
    let mut at = text.len() - rest.len();
    while let Some((sort, piece, after)) = first_piece(rest) {
        let place = Place { start: at as u32 };
        if !push_piece(alloc, &mut tokens, sort, piece, place)? {
            return Ok((tokens, refused(Rule::L3, at)));
        }
        at += piece.len();
        rest = after;
    }
    if rest.is_empty() {
        Ok((tokens, None))
    } else {
        Ok((tokens, refused(Rule::L2, at)))
    }
}

// The stop in the well-formed front, or else where that front ends before the source.
fn stop_behind(source: &[u8], text: &str, stop: Option<Refusal>) -> Option<Refusal>
    requires front { text.now ≡ take (utf8_valid_len source.now) source.now }
    requires short { length source.now < 4294967295 }
    ensures { result ≡ stop_behind source.now stop }
{
    match stop {
        Some(refusal) => Some(refusal),
        None if text.len() < source.len() => refused(Rule::L1, text.len()),
        None => None,
    }
}

/// Cuts a source into its longest tokens. It reads each byte a bounded number of times.
#[tactic(auto, using(crate::proofs::Total::has_tokens))]
pub fn lex(alloc: Global, source: &[u8]) -> Result<Lexed, NoMemory>
    requires { length source.now < 4294967295 }
    ensures lexes { IfOk result (λ l. Lexes source.now l.tokens l.stop) }
    ensures some { (tokens : List Token) × (stop : Option Refusal) × Lexes source.now tokens stop }
    ensures only { IfOk result (λ l. (tokens : List Token) (stop : Option Refusal) → Lexes source.now tokens stop → (tokens ≡ l.tokens) × (stop ≡ l.stop)) }
    ensures end { IfOk result (λ l. l.end.start ≡ length source.now) }
{
    let end = Place {
        start: source.len() as u32,
    };
    if source.len() > MOST_BYTES {
        let tokens = Items::new(alloc);
        let stop = refused(Rule::L0, 0);
        return Ok(Lexed { tokens, stop, end });
    }
    let text = well_formed_front(source);
    let (tokens, stop) = lex_text(alloc, text)?;
    let stop = stop_behind(source, text, stop);
    Ok(Lexed { tokens, stop, end })
}
