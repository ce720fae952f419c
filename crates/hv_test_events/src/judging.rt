use hv_await::await_refusal;
use hv_excl::excl_refusal;
use hv_init::init_refusal;
use hv_parse::{ParseEnd, parse};
use hv_token::lex;
use hv_tree::{Place, Refusal, Rule, Tree};
use std::alloc::{AllocError as NoMemory, Global};

/// The rules that are judged together.
#[derive(Clone, Copy, Debug)]
pub enum Phase {
    Initialisation,
    Accesses,
    Handles,
}

/// What is judged of a source.
#[derive(Clone, Copy, Debug, PartialEq, Eq)]
pub enum Judged {
    Accepted,
    Refused(Rule, Place),
    /// It has no tree.
    Unread,
}

/// Whether a line of a table is a row of it, and no remark.
pub fn is_row(line: &str) -> bool {
    !line.is_empty() && !line.starts_with('#')
}

fn rule_named(word: &str) -> Option<Rule> {
    [
        ("I1", Rule::I1),
        ("I2", Rule::I2),
        ("I3", Rule::I3),
        ("X1", Rule::X1),
        ("X2", Rule::X2),
        ("S1", Rule::S1),
        ("S2", Rule::S2),
        ("S3", Rule::S3),
    ]
    .into_iter()
    .find_map(|(name, rule)| (name == word).then_some(rule))
}

/// The rule that a row begins with, and what follows; a remark begins with none.
pub fn ruled(line: &str) -> Option<(Rule, &str)> {
    let (word, row) = line.split_once(' ')?;
    Some((rule_named(word)?, row))
}

/// The source without the mark `^`, and where that stands.
pub fn unmarked(alloc: Global, text: &str) -> Result<(Vec<u8>, Place), NoMemory> {
    let mut source = Vec::new(alloc);
    let mut start = 0u32;
    let mut marked = 0;
    for byte in text.as_bytes() {
        if *byte == b'^' {
            marked = start;
        } else {
            source.push(*byte)?;
            start = start.saturating_add(1);
        }
    }
    Ok((source, Place { start: marked }))
}

fn first_of(alloc: Global, phase: Phase, tree: &Tree) -> Result<Option<Refusal>, NoMemory> {
    match phase {
        Phase::Initialisation => init_refusal(alloc, tree),
        Phase::Accesses => excl_refusal(alloc, tree),
        Phase::Handles => await_refusal(alloc, tree),
    }
}

pub fn answer_of(alloc: Global, phase: Phase, source: &[u8]) -> Result<Judged, NoMemory> {
    if source.len() > 1_048_576 {
        return Ok(Judged::Unread);
    }
    let Ok(lexed) = lex(alloc, source) else {
        return Err(NoMemory);
    };
    let tree = match parse(alloc, &lexed) {
        Ok(tree) => tree,
        Err(ParseEnd::Refused(_)) => return Ok(Judged::Unread),
        Err(ParseEnd::NoMemory) => return Err(NoMemory),
    };
    match first_of(alloc, phase, &tree)? {
        Some(refusal) => Ok(Judged::Refused(refusal.rule, refusal.place)),
        None => Ok(Judged::Accepted),
    }
}
