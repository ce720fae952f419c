// A source and a sink over memory, which tell all their bytes and fail where they are asked to.
ghost use Rattle.std.specs.Prelude.{◌≡◌, ◌≤◌, ◌<◌, ◌+◌, ◌-◌, ◌^◌, ◌++◌, ◌↔◌, ◌⊎◌, [], Some, None, length, min, map, take, drop, slice_get, vec_len, vec_capacity, string_bytes, IfOk, IfErr, IsErr, OnOk, OnErr, IsTrue, MatchOption};
ghost use Rattle.std.specs.Option.{option_map};
ghost use Rattle.std.specs.Io.{ReadsAtMost, WritesAtMost};
ghost use Rattle.std.specs.Io.KnownBytes.{ReadConsumes, WriteAppends};
ghost use Rattle.hv_ports.specs.Causes.{HasCause, TakesEmpty, TakesSome};
ghost use Rattle.hv_ports.specs.Memory.{bytes_named, bytes_of, file_of, one_more, Counted, IsDue, IsFull};

use crate::{Failed, Sink, Source};
use hv_items::at;
use std::alloc::{AllocError, Global};
use std::marker::Model;

/// Named files in memory.
#[derive(Drop)]
pub struct MemSource {
    files: Vec<(String, Vec<u8>)>,
    fails: Vec<u64>,
    most: usize,
    calls: u64,
    faults: u64,
    asked: Option<String>,
    started: usize,
    moved: usize,
}

impl Model for MemSource {
    ghost use Rattle.std.specs.Prelude.{◌<◌, map, drop, slice_get, string_bytes};
    ghost use Rattle.std.specs.Option.{option_map};
    ghost use Rattle.hv_ports.specs.Memory.{Stored, file_of, bytes_of};

    ghost Value = { Stored };

    ghost view = { λ s. record { files = map file_of s.files.items; fails = s.fails.items; most = s.most; calls = s.calls; faults = s.faults; asked = option_map string_bytes s.asked; left = drop s.moved (bytes_of (option_map file_of (slice_get s.files.items s.started))) } };

    ghost invariant = { λ s. 0 < s.most };
}

impl MemSource {
    /// The calls whose numbers, from 0, are in `fails` fail, and a read gives at most `most` bytes.
    pub fn new(files: Vec<(String, Vec<u8>)>, fails: Vec<u64>, most: usize) -> MemSource
        requires { 0 < most }
        ensures { result ≡ record { files = map file_of files.items; fails = fails.items; most = most; calls = 0; faults = 0; asked = None; left = [] } }
    {
        MemSource {
            started: files.len(),
            files,
            fails,
            most,
            calls: 0,
            faults: 0,
            asked: None,
            moved: 0,
        }
    }

    // The bytes that are left.
    fn rest(&self) -> &[u8]
        ensures { result.now ≡ self.now.left }
    {
        match at(self.files.as_slice(), self.started) {
            Some(file) => tail(file.1.as_slice(), self.moved),
            None => tail(&[], self.moved),
        }
    }

    // Counts a call, and tells whether it is to fail.
    fn is_due(&mut self) -> bool
        ensures due { IsTrue result ↔ IsDue self.old }
        ensures same { self.new ≡ record self.old { calls = one_more self.old.calls } }
    {
        let number = self.calls;
        self.calls = number.saturating_add(1);
        self.fails.contains(&number)
    }
}

// The bytes from a place on.
fn tail(bytes: &[u8], from: usize) -> &[u8]
    ensures { result.now ≡ drop from bytes.now }
{
    if from < bytes.len() {
        &bytes[from..]
    } else {
        &[]
    }
}

// Copies what has room to the front of a buffer, but at most so many bytes.
fn copy_front(from: &[u8], to: &mut [u8], most: usize) -> usize
    ensures count { result ≡ min (min (length to.new) most) (length from.now) }
    ensures within { result ≤ length from.now }
    ensures bound { result ≤ length to.new }
    ensures bytes { from.now ≡ take result to.new ++ drop result from.now }
{
    let count = to.len().min(most).min(from.len());
    to[..count].copy_from_slice(&from[..count]);
    count
}

// The place of the first file of that name.
fn place_of(files: &[(String, Vec<u8>)], name: &str) -> Option<usize>
    ensures { MatchOption result (bytes_named (map file_of files.now) name.now ≡ None) (λ i. bytes_named (map file_of files.now) name.now ≡ Some (bytes_of (option_map file_of (slice_get files.now i)))) }
{
    for (i, file) in files.iter().enumerate() {
        if file.0.as_str() == name {
            return Some(i);
        }
    }
    None
}

impl Source for MemSource {
    ghost files = { λ s name. bytes_named s.files name };

    ghost left = { λ s. Some s.left };

    ghost asked = { λ s. s.asked };

    ghost faults = { λ s. s.faults };

    fn start(&mut self, name: String) -> Result<(), Failed>
        requires { self.old.asked ≡ None }
        ensures asked { self.new.asked ≡ Some (string_bytes name) }
        ensures bytes { OnOk result (bytes_named self.old.files (string_bytes name) ≡ Some self.new.left) }
        ensures cause { HasCause self.old.faults self.new.faults result }
        ensures fails { IsErr result ↔ (IsDue self.old ⊎ (bytes_named self.old.files (string_bytes name) ≡ None)) }
        ensures counted { Counted self.old self.new }
    {
        let is_due = self.is_due();
        let place = place_of(self.files.as_slice(), name.as_str());
        self.asked = Some(name);
        match place {
            Some(started) if !is_due => {
                self.started = started;
                self.moved = 0;
                Ok(())
            }
            _ => {
                self.faults = self.faults.saturating_add(1);
                Err(Failed)
            }
        }
    }

    fn read(&mut self, to: &mut [u8]) -> Result<usize, Failed>
        ensures bound { ReadsAtMost result to.new }
        ensures bytes { ReadConsumes (Some self.old.left) (Some self.new.left) result to.new }
        ensures count { IfOk result (λ n. n ≡ min (min (length to.new) self.old.most) (length self.old.left)) }
        ensures asked { self.new.asked ≡ self.old.asked }
        ensures cause { HasCause self.old.faults self.new.faults result }
        ensures fails { IsErr result ↔ IsDue self.old }
        ensures counted { Counted self.old self.new }
    {
        if self.is_due() {
            self.faults = self.faults.saturating_add(1);
            return Err(Failed);
        }
        let most = self.most;
        let count = copy_front(self.rest(), to, most);
        self.moved += count;
        Ok(count)
    }
}

/// Takes bytes up to a limit.
#[derive(Drop)]
pub struct MemSink {
    bytes: Vec<u8>,
    limit: usize,
    faults: u64,
}

impl Model for MemSink {
    ghost use Rattle.std.specs.Prelude.{◌≤◌, vec_len, vec_capacity};
    ghost use Rattle.hv_ports.specs.Memory.{Taking};

    ghost Value = { Taking };

    ghost view = { λ k. record { written = k.bytes.items; limit = k.limit; faults = k.faults } };

    ghost invariant = { λ k. (k.limit ≤ vec_capacity k.bytes) × (vec_len k.bytes ≤ k.limit) };
}

impl MemSink {
    /// Takes room for all the bytes up to the limit.
    pub fn new(alloc: Global, limit: usize) -> Result<MemSink, AllocError>
        ensures { IfOk result (λ k. k ≡ record { written = []; limit = limit; faults = 0 }) }
    {
        Ok(MemSink {
            bytes: Vec::with_capacity(alloc, limit)?,
            limit,
            faults: 0,
        })
    }

    /// What was written.
    pub fn bytes(&self) -> &[u8]
        ensures { result.now ≡ self.now.written }
    {
        self.bytes.as_slice()
    }
}

impl Sink for MemSink {
    ghost written = { λ k. Some k.written };

    ghost faults = { λ k. k.faults };

    fn write(&mut self, from: &[u8]) -> Result<usize, Failed>
        ensures bound { WritesAtMost result from.now }
        ensures some { TakesSome result from.now }
        ensures empty { TakesEmpty result from.now (Some self.old.written) (Some self.new.written) self.old.faults self.new.faults }
        ensures bytes { WriteAppends (Some self.old.written) (Some self.new.written) result from.now }
        ensures cause { HasCause self.old.faults self.new.faults result }
        ensures count { IfOk result (λ n. n ≡ min (length from.now) (self.old.limit - length self.old.written)) }
        ensures fails { IsErr result ↔ IsFull self.old from.now }
        ensures same { self.new.limit ≡ self.old.limit }
    {
        let count = from.len().min(self.limit - self.bytes.len());
        if count == 0 && from.len() > 0 {
            self.faults = self.faults.saturating_add(1);
            return Err(Failed);
        }
        match self.bytes.extend_from_slice(&from[..count]) {
            Ok(()) => Ok(count),
            Err(_) => unreachable!(),
        }
    }
}
