// Reads a file to its end, or to one byte more than a source may have.
ghost use Rattle.std.specs.Prelude.{◌≡◌, ◌≤◌, ◌<◌, Some, None, vec_len, IfOk, IsErrOf};
ghost use Rattle.hv_ports.specs.Causes.{Rose};
ghost use Rattle.hv_driver.specs.Took.{TakesPart, ReadsFile};

use hv_ports::Source;
use std::alloc::{AllocError, Global};

const LIMIT: usize = 1048577;

/// Why a file isn't read.
#[derive(Clone, Copy, Debug, PartialEq, Eq)]
pub enum ReadEnd {
    /// It can't be opened, or a read of it failed.
    Fault,
    /// There is no memory for its name or its bytes.
    Memory,
}

/// All bytes, but at most 1,048,577: one more than a source may have tells that it is too long.
pub fn read_file<S: Source>(alloc: Global, file: &str, src: &mut S) -> Result<Vec<u8>, ReadEnd>
    requires { S.asked src.old ≡ None }
    ensures bytes { IfOk result (λ v. ReadsFile (S.files src.old file.now) (S.left src.new) v.items) }
    ensures small { IfOk result (λ v. vec_len v ≤ 1048577) }
    ensures fault { IsErrOf result ReadEnd.Fault → Rose (S.faults src.old) (S.faults src.new) }
    ensures asked { IsErrOf result ReadEnd.Fault → S.asked src.new ≡ Some file.now }
{
    let Ok(name) = String::from_str(alloc, file) else {
        return Err(ReadEnd::Memory);
    };
    match src.start(name) {
        Ok(()) => read_to_end(alloc, src),
        Err(_) => Err(ReadEnd::Fault),
    }
}

fn read_to_end<S: Source>(alloc: Global, src: &mut S) -> Result<Vec<u8>, ReadEnd>
    ensures bytes { IfOk result (λ v. ReadsFile (S.left src.old) (S.left src.new) v.items) }
    ensures small { IfOk result (λ v. vec_len v ≤ 1048577) }
    ensures fault { IsErrOf result ReadEnd.Fault → Rose (S.faults src.old) (S.faults src.new) }
    ensures later { S.faults src.old ≤ S.faults src.new }
    ensures asked { S.asked src.new ≡ S.asked src.old }
{
    let mut bytes = Vec::new(alloc);
    while bytes.len() < LIMIT {
        match read_some(src, &mut bytes) {
            Ok(0) => return Ok(bytes),
            Ok(_) => {}
            Err(end) => return Err(end),
        }
    }
    Ok(bytes)
}

// Reads a piece onto the end.
fn read_some<S: Source>(src: &mut S, bytes: &mut Vec<u8>) -> Result<usize, ReadEnd>
    requires { vec_len bytes.old < 1048577 }
    ensures part { IfOk result (TakesPart (S.left src.old) (S.left src.new) bytes.old.items bytes.new.items) }
    ensures small { IfOk result (λ n. vec_len bytes.new ≤ 1048577) }
    ensures fault { IsErrOf result ReadEnd.Fault → Rose (S.faults src.old) (S.faults src.new) }
    ensures later { S.faults src.old ≤ S.faults src.new }
    ensures asked { S.asked src.new ≡ S.asked src.old }
{
    let mut buf = [0u8; 4096];
    let room = (LIMIT - bytes.len()).min(4096);
    let part = &mut buf[..room];
    match src.read(part) {
        Ok(count) => match bytes.extend_from_slice(&part[..count]) {
            Ok(()) => Ok(count),
            Err(_) => Err(ReadEnd::Memory),
        },
        Err(_) => Err(ReadEnd::Fault),
    }
}
