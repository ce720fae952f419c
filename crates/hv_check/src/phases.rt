ghost use Rattle.std.specs.Prelude.{◌≡◌, ◌<◌, length};
ghost use Rattle.hv_check.specs.Checks.{Reads, Checks};

use hv_parse::{ParseEnd, parse};
use hv_token::lex;
use hv_tree::{Edition, Refusal, Tree};
use hv_types::names_and_types;
use std::alloc::Global;
use thiserror::Error;

/// Why a source isn't accepted.
#[derive(Clone, Copy, Debug, Error)]
pub enum CheckEnd {
    /// The first rule that is violated, and where.
    #[error("the source violates a rule")]
    Refused(Refusal),
    #[error("out of memory")]
    NoMemory,
}

fn read(alloc: Global, source: &[u8]) -> Result<Tree, CheckEnd>
    requires { length source.now < 4294967295 }
    ensures { Reads source.now result }
{
    let Ok(lexed) = lex(alloc, source) else {
        return Err(CheckEnd::NoMemory);
    };
    match parse(alloc, &lexed) {
        Ok(tree) => Ok(tree),
        Err(ParseEnd::Refused(refusal)) => Err(CheckEnd::Refused(refusal)),
        Err(ParseEnd::NoMemory) => Err(CheckEnd::NoMemory),
    }
}

#[tactic(auto, using(crate::proofs::Sources::unread_checks))]
/// Accepts a source, or refuses it. The rules so far are those on tokens and on the grammar, which
/// are the same in every edition, and those of names and types.
pub fn check(alloc: Global, source: &[u8], _edition: Edition) -> Result<Tree, CheckEnd>
    requires { length source.now < 4294967295 }
    ensures { Checks source.now result }
{
    let tree = read(alloc, source)?;
    match names_and_types(alloc, &tree) {
        Ok(None) => Ok(tree),
        Ok(Some(refusal)) => Err(CheckEnd::Refused(refusal)),
        Err(_) => Err(CheckEnd::NoMemory),
    }
}
