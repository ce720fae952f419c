// One run of the tool over memory.
ghost use Rattle.std.specs.Prelude.{◌≡◌, None, IfOk};

use hv_driver::{Status, alone};
use hv_ports::{MemSink, MemSource};
use std::alloc::{AllocError, Global};

/// How a run ended, and what it wrote.
#[derive(Drop)]
pub struct Ran {
    pub status: Status,
    pub written: Vec<u8>,
}

/// The words as owned texts.
pub fn words_of(alloc: Global, words: &[&str]) -> Result<Vec<String>, AllocError> {
    let mut owned = Vec::new(alloc);
    for word in words {
        owned.push(String::from_str(alloc, word)?)?;
    }
    Ok(owned)
}

/// A source with the one file `F`, whose calls fail at these numbers, read by so many bytes.
pub fn source_of(
    alloc: Global,
    text: &[u8],
    fails: Vec<u64>,
    most: usize,
) -> Result<MemSource, AllocError>
    ensures { IfOk result (λ source. source.asked ≡ None) }
{
    let mut files = Vec::new(alloc);
    files.push((String::from_str(alloc, "F")?, text.to_vec(alloc)?))?;
    Ok(MemSource::new(files, fails, most.max(1)))
}

/// Runs the tool into a sink of so many bytes.
pub fn run(
    alloc: Global,
    words: &[&str],
    source: MemSource,
    limit: usize,
) -> Result<Ran, AllocError>
    requires { source.asked ≡ None }
{
    let mut source = source;
    let words = words_of(alloc, words)?;
    let mut sink = MemSink::new(alloc, limit)?;
    let status = alone(alloc, &words, &mut source, &mut sink);
    let written = sink.bytes().to_vec(alloc)?;
    Ok(Ran { status, written })
}
