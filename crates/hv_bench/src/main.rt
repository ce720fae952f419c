//! Does to a source at standard input what `hv` doesn't do yet, for the measurements of bench/ and for the examples: `init`,
//! `excl` and `await` print the place of the first violation of the rules on initialisation, on accesses or on handles,
//! `judge` the line that names the first violation of the three, `run` runs a program that passes places on, and `lex N`
//! lexes N times and prints how many tokens there are.
#![tactic(auto)]

mod lexing;

ghost use Rattle.std.specs.Prelude.{length, ◌<◌};

use crate::lexing::count_tokens;
use hv_await::await_refusal;
use hv_excl::excl_refusal;
use hv_init::init_refusal;
use hv_meaning::evaluate;
use hv_parse::parse;
use hv_report::refusal_text;
use hv_task_tree::End;
use hv_token::lex;
use hv_tree::{Refusal, Tree};
use std::alloc::{AllocError, Global};
use std::env;
use std::io::{self, Read};
use std::rt::Env;
use std::thread::{self, Builder};

// As the program itself has it, in bytes.
const STACK: usize = 0x1000_0000;

const STEPS: u64 = 1_000_000_000_000;

// The source's tree, if it has one.
fn tree_of(alloc: Global, source: &[u8]) -> Result<Option<Tree>, AllocError>
    requires { length source.now < 4294967295 }
{
    let Ok(lexed) = lex(alloc, source) else {
        return Ok(None);
    };
    Ok(parse(alloc, &lexed).ok())
}

fn told(alloc: Global, refusal: Option<Refusal>) -> Result<String, AllocError> {
    match refusal {
        Some(refusal) => format!(in alloc; "{:?} at {}\n", refusal.rule, refusal.place.start),
        None => String::from_str(alloc, "none\n"),
    }
}

// What the program writes is text.
fn text_of(alloc: Global, bytes: Vec<u8>) -> String {
    match String::from_utf8(bytes) {
        Ok(text) => text,
        Err(_) => String::new(alloc),
    }
}

// The rules on initialisation come first, then those on accesses, then those on handles.
fn first_violation(alloc: Global, tree: &Tree) -> Result<Option<Refusal>, AllocError> {
    if let Some(refusal) = init_refusal(alloc, tree)? {
        return Ok(Some(refusal));
    }
    if let Some(refusal) = excl_refusal(alloc, tree)? {
        return Ok(Some(refusal));
    }
    await_refusal(alloc, tree)
}

fn judge(alloc: Global, source: &[u8], tree: &Tree) -> Result<String, AllocError>
    requires { length source.now < 4294967295 }
{
    match first_violation(alloc, tree)? {
        Some(refusal) => Ok(text_of(alloc, refusal_text(alloc, source, refusal)?)),
        None => String::from_str(alloc, "accepted\n"),
    }
}

fn run(alloc: Global, tree: &Tree) -> Result<String, AllocError> {
    let Some(node) = evaluate(alloc, tree, STEPS)? else {
        return String::from_str(alloc, "stuck\n");
    };
    let mut text = text_of(alloc, node.output.into_vec());
    match node.end {
        End::Done(_) => {}
        End::Trap(kind, at) => text.push_str(format!(in alloc;
            "{kind:?} at {}\n",
            at.start
        )?.as_str())?,
        End::Spent(at) => text.push_str(format!(in alloc; "spent at {}\n", at.start)?.as_str())?,
    }
    Ok(text)
}

fn answer_of(alloc: Global, word: &str, source: &[u8]) -> Result<String, AllocError> {
    if source.len() > 1_048_576 {
        return String::from_str(alloc, "no tree\n");
    }
    let Some(tree) = tree_of(alloc, source)? else {
        return String::from_str(alloc, "no tree\n");
    };
    match word {
        "init" => told(alloc, init_refusal(alloc, &tree)?),
        "excl" => told(alloc, excl_refusal(alloc, &tree)?),
        "await" => told(alloc, await_refusal(alloc, &tree)?),
        "judge" => judge(alloc, source, &tree),
        _ => run(alloc, &tree),
    }
}

fn answer(rt: &(impl Env + AllocGlobal + Input)) -> io::Result<String> {
    let alloc = rt.alloc();
    let mut source = Vec::new(alloc);
    rt.reader().read_to_end(&mut source)?;
    let mut words = env::args(rt)?.skip(1);
    let Some(word) = words.next() else {
        return Ok(String::from_str(alloc, "init, excl, await, judge, run or lex N\n")?);
    };
    if word.as_str() == "lex" {
        let rounds = words.next().unwrap_or(String::new(alloc));
        return Ok(count_tokens(alloc, rounds.as_str(), source.as_slice())?);
    }
    Ok(answer_of(alloc, word.as_str(), source.as_slice())?)
}

fn main(rt: HostRuntime) -> io::Result<()> {
    let text = thread::scope(thread::scope_env(), &rt, |scope| {
        match Builder::new()
            .stack_size(STACK)
            .spawn_scoped(scope, || answer(&rt))
        {
            Ok(running) => running.join(&rt),
            Err(error) => Err(error),
        }
    })?;
    print!(rt; "{text}")
}
