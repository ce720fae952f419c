use hv_meaning::evaluate;
use hv_parse::{ParseEnd, parse};
use hv_task_tree::TaskNode;
use hv_token::lex;
use std::alloc::{AllocError as NoMemory, Global};
use std::sync::Wait;
use std::thread::{self, Builder, Threads};

// As the program itself has it, in bytes.
const STACK: usize = 0x1000_0000;

fn run_here(alloc: Global, source: &str, steps: u64) -> Result<Option<TaskNode>, NoMemory> {
    let source = source.as_bytes();
    if source.len() > 1_048_576 {
        return Ok(None);
    }
    let Ok(lexed) = lex(alloc, source) else {
        return Err(NoMemory);
    };
    match parse(alloc, &lexed) {
        Ok(tree) => evaluate(alloc, &tree, steps),
        Err(ParseEnd::Refused(_)) => Ok(None),
        Err(ParseEnd::NoMemory) => Err(NoMemory),
    }
}

/// What a program of this source does with so many steps; None where it has no tree, is stuck, or no thread can be had.
pub fn run(
    rt: &(impl AllocGlobal + Threads + Wait),
    source: &str,
    steps: u64,
) -> Result<Option<TaskNode>, NoMemory> {
    let alloc = rt.alloc();
    thread::scope(thread::scope_env(), rt, |scope| {
        match Builder::new()
            .stack_size(STACK)
            .spawn_scoped(scope, || run_here(alloc, source, steps))
        {
            Ok(running) => running.join(rt),
            Err(_) => Ok(None),
        }
    })
}
