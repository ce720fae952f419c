use hv_parse::{ParseEnd, parse};
use hv_token::lex;
use hv_tree::Rule;
use hv_types::names_and_types;
use std::alloc::{AllocError as NoMemory, Global};

/// What is judged of a source.
#[derive(Clone, Copy, Debug, PartialEq, Eq)]
pub enum Judged {
    Accepted,
    Refused(Rule, u32),
    /// It has no tree.
    Unread,
}

/// The source without the mark `^`, and where that stands.
pub fn unmarked(alloc: Global, text: &str) -> Result<(Vec<u8>, usize), NoMemory> {
    let mut source = Vec::new(alloc);
    let mut place = 0;
    for byte in text.as_bytes() {
        if *byte == b'^' {
            place = source.len();
        } else {
            source.push(*byte)?;
        }
    }
    Ok((source, place))
}

pub fn answer_of(alloc: Global, source: &[u8]) -> Result<Judged, NoMemory> {
    if source.len() > 1_048_576 {
        return Ok(Judged::Unread);
    }
    let Ok(lexed) = lex(alloc, source) else {
        return Err(NoMemory);
    };
    let tree = match parse(alloc, &lexed) {
        Ok(tree) => tree,
        Err(ParseEnd::Refused(_)) => return Ok(Judged::Unread),
        Err(ParseEnd::NoMemory) => return Err(NoMemory),
    };
    match names_and_types(alloc, &tree)? {
        Some(refusal) => Ok(Judged::Refused(refusal.rule, refusal.place.start)),
        None => Ok(Judged::Accepted),
    }
}
