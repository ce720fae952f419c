//! A whole source: its tree, or the refusal that counts.

ghost use Rattle.std.specs.Prelude.{◌≡◌};
ghost use Rattle.hv_parse.specs.Answers.{Parses};
ghost use Rattle.hv_parse.specs.Whole.{place_back, off_refusal, answer_of};

use crate::declarations::program;
use hv_syn_grammar::{Cursor, Stop};
use hv_token::Lexed;
use hv_tree::{Place, Refusal, Rule, Tree};
use std::alloc::Global;
use thiserror::Error;

/// Why a source has no tree.
#[derive(Clone, Copy, Debug, Error)]
pub enum ParseEnd {
    /// The rule that is violated, and where.
    #[error("the source violates a rule")]
    Refused(Refusal),
    #[error("out of memory")]
    NoMemory,
}

/// The place of the first of the last tokens.
fn place_back(lexed: &Lexed, left: usize) -> Option<Place>
    ensures { result ≡ place_back lexed.now.tokens left }
{
    match lexed.tokens.get(lexed.tokens.len().saturating_sub(left)) {
        Some(token) => Some(token.place),
        None => None,
    }
}

fn off_refusal(next: Option<Place>, stopped: Option<Refusal>, end: Place) -> Refusal
    ensures { result ≡ off_refusal next stopped end }
{
    match (next, stopped) {
        (Some(place), _) => Refusal {
            rule: Rule::P1,
            place,
        },
        (None, Some(refusal)) => refusal,
        (None, None) => Refusal {
            rule: Rule::P1,
            place: end,
        },
    }
}

/// What was read of all tokens but the last ones.
fn answer_of(lexed: &Lexed, read: Result<Tree, Stop>, left: usize) -> Result<Tree, ParseEnd>
    ensures { result ≡ answer_of (place_back lexed.now.tokens left) lexed.now.stop lexed.now.end read }
{
    let next = place_back(lexed, left);
    match read {
        Ok(tree) => match lexed.stop {
            None => Ok(tree),
            Some(refusal) => Err(ParseEnd::Refused(refusal)),
        },
        Err(Stop::Off) => Err(ParseEnd::Refused(off_refusal(next, lexed.stop, lexed.end))),
        Err(Stop::Deep) => Err(ParseEnd::Refused(Refusal {
            rule: Rule::P2,
            place: next.unwrap_or(lexed.end),
        })),
        Err(Stop::NoMemory) => Err(ParseEnd::NoMemory),
    }
}

/// The one tree that the tokens spell, or the first rule that is violated.
#[tactic(auto, using(crate::proofs::Wholes::parses))]
pub fn parse(alloc: Global, lexed: &Lexed) -> Result<Tree, ParseEnd>
    ensures { Parses lexed.now.tokens lexed.now.stop lexed.now.end result }
{
    let mut cursor = Cursor::new(lexed.tokens.as_slice());
    let read = program(alloc, &mut cursor);
    answer_of(lexed, read, cursor.left())
}
