//! One pass over the words behind the subcommand: it takes off the positional, and refuses a word
//! that has no place there.
ghost use Rattle.std.specs.Prelude.{◌≡◌, Some, map, string_bytes};
ghost use Rattle.hv_words.specs.Line.{form_of, line_of, nothing_seen, seen_of, ended, file_step, name_step, step, value_step, Parts, Steps, kept, noted};

use crate::number::is_number;
use crate::order::WordsEnd;
use crate::subcommand::{Form, Kind, is_among};
use std::alloc::Global;

/// The words of a line so far.
#[derive(Debug, Drop)]
struct Line<'a> {
    file: Option<&'a str>,
    /// The options, each with its value behind it, and the flags.
    left: Vec<&'a str>,
    /// The options and flags alone.
    names: Vec<&'a str>,
    /// The next word is the value of an option.
    waits: bool,
}

/// A line without its positional.
#[derive(Debug, Drop)]
pub(crate) struct Parted<'a> {
    pub(crate) file: &'a str,
    pub(crate) left: Vec<&'a str>,
}

impl<'a> Line<'a> {
    fn new(alloc: Global) -> Line<'a>
        ensures { seen_of result ≡ nothing_seen }
    {
        Line {
            file: None,
            left: Vec::new(alloc),
            names: Vec::new(alloc),
            waits: false,
        }
    }

    /// Puts the word behind those that are left.
    fn keep(&mut self, word: &'a str) -> Result<(), WordsEnd>
        ensures { Steps (Some (kept word.entry.now (seen_of self.old))) (seen_of self.new) result }
    {
        match self.left.push(word) {
            Ok(()) => Ok(()),
            Err(_) => Err(WordsEnd::NoMemory),
        }
    }

    /// Puts the word behind the names.
    fn note(&mut self, word: &'a str) -> Result<(), WordsEnd>
        ensures { Steps (Some (noted word.entry.now (seen_of self.old))) (seen_of self.new) result }
    {
        match self.names.push(word) {
            Ok(()) => Ok(()),
            Err(_) => Err(WordsEnd::NoMemory),
        }
    }

    /// Takes a value.
    fn take_value(&mut self, word: &'a str) -> Result<(), WordsEnd>
        ensures { Steps (value_step word.entry.now (seen_of self.old)) (seen_of self.new) result }
    {
        if !is_number(word) {
            return Err(WordsEnd::Usage);
        }
        self.waits = false;
        self.keep(word)
    }

    /// Takes the name of an option or a flag.
    fn take_name(&mut self, word: &'a str, waits: bool) -> Result<(), WordsEnd>
        ensures { Steps (name_step waits word.entry.now (seen_of self.old)) (seen_of self.new) result }
    {
        if is_among(word, self.names.as_slice()) {
            return Err(WordsEnd::Usage);
        }
        match self.note(word) {
            Ok(()) => {
                self.waits = waits;
                self.keep(word)
            }
            Err(_) => Err(WordsEnd::NoMemory),
        }
    }

    fn take_file(&mut self, word: &'a str) -> Result<(), WordsEnd>
        ensures { Steps (file_step (seen_of self.old).file word.entry.now (seen_of self.old)) (seen_of self.new) result }
    {
        if self.file.is_some() {
            return Err(WordsEnd::Usage);
        }
        self.file = Some(word);
        Ok(())
    }

    fn take(&mut self, form: &Form, word: &'a str) -> Result<(), WordsEnd>
        ensures { Steps (step (form_of form.now) word.entry.now (seen_of self.old)) (seen_of self.new) result }
    {
        if self.waits {
            return self.take_value(word);
        }
        match form.kind_of(word) {
            Kind::Valued => self.take_name(word, true),
            Kind::Flag => self.take_name(word, false),
            Kind::Positional => self.take_file(word),
            Kind::Unknown => Err(WordsEnd::Usage),
        }
    }

    /// The line, where it is whole.
    fn finish(self) -> Result<Parted<'a>, WordsEnd>
        ensures { Parts (ended (seen_of self.entry)) result }
    {
        match self.file {
            Some(file) if !self.waits => Ok(Parted {
                file,
                left: self.left,
            }),
            _ => Err(WordsEnd::Usage),
        }
    }
}

/// Parts the positional from the options and flags.
pub(crate) fn part<'a>(
    alloc: Global,
    form: &Form,
    words: &'a [String],
) -> Result<Parted<'a>, WordsEnd>
    ensures { Parts (line_of (form_of form.now) (map string_bytes words.now)) result }
{
    let mut line = Line::new(alloc);
    for word in words {
        if let Err(end) = line.take(form, word.as_str()) {
            return Err(end);
        }
    }
    line.finish()
}
