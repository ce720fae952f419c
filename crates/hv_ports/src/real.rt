// The real files and streams. They tell no bytes, and each error raises a count.
ghost use Rattle.std.specs.Prelude.{◌≡◌, None};

use crate::{Failed, Sink, Source};
use std::fs;
use std::io::{self, Read, Write};
use std::marker::Model;
use std::rt::Files;

/// Files by their paths; `-` is standard input.
#[derive(Drop)]
pub struct FileSource<'r, R: Files + Input> {
    rt: &'r R,
    file: Option<R::File>,
    is_standard: bool,
    asked: Option<String>,
    faults: u64,
}

impl<'r, R: Files + Input> Model for FileSource<'r, R> {
    ghost use Rattle.std.specs.Prelude.{string_bytes};
    ghost use Rattle.std.specs.Option.{option_map};
    ghost use Rattle.hv_ports.specs.Real.{Asking};

    ghost Value = { Asking };

    ghost view = { λ s. record { asked = option_map string_bytes s.asked; faults = s.faults } };
}

impl<'r, R: Files + Input> FileSource<'r, R> {
    /// Opens nothing yet.
    pub fn new(rt: &'r R) -> FileSource<'r, R>
        ensures { result ≡ record { asked = None; faults = 0 } }
    {
        FileSource {
            rt,
            file: None,
            is_standard: false,
            asked: None,
            faults: 0,
        }
    }
}

impl<'r, R: Files + Input> Source for FileSource<'r, R> {
    ghost files = { λ s name. None };

    ghost left = { λ s. None };

    ghost asked = { λ s. s.asked };

    ghost faults = { λ s. s.faults };

    fn start(&mut self, name: String) -> Result<(), Failed> {
        if name.as_str() == "-" {
            self.is_standard = true;
            self.asked = Some(name);
            return Ok(());
        }
        let opened = fs::open(self.rt, name.as_str());
        self.asked = Some(name);
        match opened {
            Ok(file) => {
                self.file = Some(file);
                Ok(())
            }
            Err(_) => {
                self.faults = self.faults.saturating_add(1);
                Err(Failed)
            }
        }
    }

    fn read(&mut self, to: &mut [u8]) -> Result<usize, Failed> {
        let outcome = if self.is_standard {
            self.rt.reader().read(to)
        } else if let Some(file) = &mut self.file {
            file.read(to)
        } else {
            Ok(0)
        };
        match outcome {
            Ok(count) => Ok(count),
            Err(_) => {
                self.faults = self.faults.saturating_add(1);
                Err(Failed)
            }
        }
    }
}

/// Standard output.
#[derive(Drop)]
pub struct StdSink<'r, R: Print> {
    rt: &'r R,
    faults: u64,
}

impl<'r, R: Print> StdSink<'r, R> {
    /// Counts no fault yet.
    pub fn new(rt: &'r R) -> StdSink<'r, R> {
        StdSink { rt, faults: 0 }
    }
}

impl<'r, R: Print> Sink for StdSink<'r, R> {
    ghost written = { λ k. None };

    ghost faults = { λ k. k.faults };

    fn write(&mut self, from: &[u8]) -> Result<usize, Failed> {
        if from.is_empty() {
            return Ok(0);
        }
        match io::writer(self.rt).write(from) {
            Ok(count) if count > 0 => Ok(count),
            _ => {
                self.faults = self.faults.saturating_add(1);
                Err(Failed)
            }
        }
    }
}
