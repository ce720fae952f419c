//! A cursor over tokens.

ghost use Rattle.std.specs.Prelude.{◌≡◌, false, true, ◌<◌, [], ◌∷◌, IfOk, MatchOption, length};
ghost use Rattle.hv_syn_grammar.specs.Parser.{passes};
ghost use Rattle.hv_tree.specs.Refusal.{is_mark};
ghost use Rattle.hv_syn_grammar.specs.Lexemes.{is_word, is_keyword, is_number, name_of, number_of, place_at, expect, expect_opening};
ghost use Rattle.hv_syn_grammar.specs.Reads.{Reads};
ghost use Rattle.hv_tree.specs.declared.token.Token.{Token};
ghost use Rattle.hv_syn_grammar.specs.Levels.{level_of, next_infix, is_infix, operator_of};

use crate::stop::Stop;
use crate::strength::{self, Strength};
use hv_tree::{Name, Operator, Place, Text, Token, TokenKind};
use std::alloc::Global;
use std::marker::Model;

/// The tokens that are still to be read. Contracts see them as a list.
#[derive(Drop)]
pub struct Cursor<'a> {
    rest: &'a [Token],
}

impl<'a> Model for Cursor<'a> {
    ghost use Rattle.hv_tree.specs.Tokens.{Tokens};

    ghost Value = { Tokens };

    ghost view = { λ c. c.rest.now };
}

impl<'a> Cursor<'a> {
    /// Stands at the first of these tokens, which are only lent.
    pub fn new(rest: &'a [Token]) -> Cursor<'a>
        ensures { result ≡ rest.now }
    {
        Cursor { rest }
    }

    /// Whether the next token is this mark, as `(`.
    pub fn sees_mark(&self, spelling: &str) -> bool
        ensures { result ≡ passes (is_mark spelling.now) self.now }
    {
        match self.rest.split_first() {
            Some((token, _)) => match &token.kind {
                TokenKind::Mark(text) => text.as_str() == spelling,
                _ => false,
            },
            None => false,
        }
    }

    /// Whether the next token is this keyword, as `while`.
    pub fn sees_keyword(&self, spelling: &str) -> bool
        ensures { result ≡ passes (is_keyword spelling.now) self.now }
    {
        match self.rest.split_first() {
            Some((token, _)) => match &token.kind {
                TokenKind::Keyword(text) => text.as_str() == spelling,
                _ => false,
            },
            None => false,
        }
    }

    /// Whether the next token is a word; a keyword is none.
    pub fn sees_word(&self) -> bool
        ensures { result ≡ passes is_word self.now }
    {
        match self.rest.split_first() {
            Some((token, _)) => matches!(&token.kind, TokenKind::Word(_)),
            None => false,
        }
    }

    /// Whether the next token is a number; a `-` before one is a token of its own.
    pub fn sees_number(&self) -> bool
        ensures { result ≡ passes is_number self.now }
    {
        match self.rest.split_first() {
            Some((token, _)) => matches!(&token.kind, TokenKind::Number(_)),
            None => false,
        }
    }

    /// Passes this mark and gives its place; another token is `Off`, and the cursor stays.
    #[tactic(auto, using(crate::proofs::Steps::expect_none, crate::proofs::Steps::expect_some))]
    pub fn mark(&mut self, spelling: &str) -> Result<Place, Stop>
        ensures { Reads (expect (is_mark spelling.now) place_at self.old) result self.new }
    {
        if !self.sees_mark(spelling) {
            return Err(Stop::Off);
        }
        match self.rest.split_first() {
            Some((token, rest)) => {
                self.rest = rest;
                Ok(token.place)
            }
            None => Err(Stop::Off),
        }
    }

    /// Passes this keyword and gives its place; another token is `Off`, and the cursor stays.
    #[tactic(auto, using(crate::proofs::Steps::expect_none, crate::proofs::Steps::expect_some))]
    pub fn keyword(&mut self, spelling: &str) -> Result<Place, Stop>
        ensures { Reads (expect (is_keyword spelling.now) place_at self.old) result self.new }
    {
        if !self.sees_keyword(spelling) {
            return Err(Stop::Off);
        }
        match self.rest.split_first() {
            Some((token, rest)) => {
                self.rest = rest;
                Ok(token.place)
            }
            None => Err(Stop::Off),
        }
    }

    /// Passes this bracket where `room` more may be open; with a room of 0 it is `Deep`, another token is `Off`.
    #[tactic(auto, using(crate::proofs::Steps::opening_none, crate::proofs::Steps::opening_full, crate::proofs::Steps::opening_some))]
    pub fn opening(&mut self, room: usize, spelling: &str) -> Result<Place, Stop>
        ensures room { IfOk result (λ _. 0 < room) }
        ensures reads { Reads (expect_opening room (is_mark spelling.now) place_at self.old) result self.new }
    {
        if !self.sees_mark(spelling) {
            return Err(Stop::Off);
        }
        if room == 0 {
            return Err(Stop::Deep);
        }
        match self.rest.split_first() {
            Some((token, rest)) => {
                self.rest = rest;
                Ok(token.place)
            }
            None => Err(Stop::Off),
        }
    }

    /// Passes a word and copies its text; another token is `Off`, and the cursor stays.
    #[tactic(auto, using(crate::proofs::Steps::expect_none, crate::proofs::Steps::expect_some))]
    pub fn word(&mut self, alloc: Global) -> Result<Name, Stop>
        ensures { Reads (expect is_word name_of self.old) result self.new }
    {
        match self.rest.split_first() {
            Some((token, rest)) => match &token.kind {
                TokenKind::Word(text) => {
                    let text = Text::from_string(String::from_str(alloc, text.as_str())?);
                    self.rest = rest;
                    Ok(Name {
                        text,
                        place: token.place,
                    })
                }
                _ => Err(Stop::Off),
            },
            None => Err(Stop::Off),
        }
    }

    /// Passes a number and gives its value and place; another token is `Off`, and the cursor stays.
    #[tactic(auto, using(crate::proofs::Steps::expect_none, crate::proofs::Steps::expect_some))]
    pub fn number(&mut self) -> Result<(i64, Place), Stop>
        ensures { Reads (expect is_number number_of self.old) result self.new }
    {
        match self.rest.split_first() {
            Some((token, rest)) => match &token.kind {
                TokenKind::Number(value) => {
                    self.rest = rest;
                    Ok((*value, token.place))
                }
                _ => Err(Stop::Off),
            },
            None => Err(Stop::Off),
        }
    }

    /// How many tokens are still to be read.
    pub fn left(&self) -> usize
        ensures { result ≡ length self.now }
    {
        self.rest.len()
    }

    /// The next token as a binary operator of the level; the cursor stays.
    pub fn infix(&self, strength: Strength) -> Option<Operator>
        ensures { result ≡ next_infix (level_of strength) self.now }
    {
        match self.rest.split_first() {
            Some((token, _)) => match &token.kind {
                TokenKind::Mark(text) => strength::infix(strength, text.as_str()),
                _ => None,
            },
            None => None,
        }
    }

    /// Whether the next token is a binary operator of the level.
    pub fn sees_infix(&self, strength: Strength) -> bool
        ensures { result ≡ passes (is_infix (level_of strength)) self.now }
    {
        self.infix(strength).is_some()
    }

    /// Passes a binary operator of the level and gives its place; at anything else the cursor stays.
    pub fn take_infix(&mut self, strength: Strength) -> Option<(Operator, Place)>
        ensures { MatchOption result ((passes (is_infix (level_of strength)) self.old ≡ false) × (self.new ≡ self.old)) (λ found. (k : Token) × (self.old ≡ k ∷ self.new) × (is_infix (level_of strength) k ≡ true) × (found.0 ≡ operator_of (level_of strength) k) × (found.1 ≡ k.place)) }
    {
        let operator = self.infix(strength)?;
        let (token, rest) = self.rest.split_first()?;
        self.rest = rest;
        Some((operator, token.place))
    }
}
