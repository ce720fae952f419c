//! What the words behind a subcommand's name say.
ghost use Rattle.std.specs.Prelude.{◌≡◌, false, map, string_bytes, true};
ghost use Rattle.hv_words.specs.Line.{form_of};
ghost use Rattle.hv_words.specs.Rows.{is_sound};
ghost use Rattle.hv_words.specs.Settings.{entry_of};
ghost use Rattle.hv_words.specs.Taken.{by_name};
ghost use Rattle.hv_words.specs.Telling.{Hears};

use crate::line::part;
use crate::order::WordsEnd;
use crate::settings::read_settings;
use crate::subcommand::Form;
use std::alloc::Global;

/// What the words say for a row of the table.
#[derive(Debug, Drop)]
pub(crate) struct Said<'a> {
    /// The positional.
    pub(crate) word: &'a str,
    /// The number that the positional is, or 0 where it names a file.
    pub(crate) count: u64,
    /// For each option of the row its name and number.
    pub(crate) numbers: Vec<(&'static str, u64)>,
    /// For each flag of the row its name, and whether it is given.
    pub(crate) marks: Vec<(&'static str, bool)>,
}

impl<'a> Said<'a> {
    /// The number of the option; 0 where the row has none of this name.
    pub(crate) fn number(&self, name: &str) -> u64
        ensures { result ≡ by_name name.now 0 (map entry_of self.now.numbers.items) }
    {
        for entry in &self.numbers {
            if name == entry.0 {
                return entry.1;
            }
        }
        0
    }

    /// Whether the flag is given; false where the row has none of this name.
    pub(crate) fn mark(&self, name: &str) -> bool
        ensures { result ≡ by_name name.now false (map entry_of self.now.marks.items) }
    {
        for entry in &self.marks {
            if name == entry.0 {
                return entry.1;
            }
        }
        false
    }
}

/// Reads the words behind the name of the row.
pub(crate) fn read_said<'a>(
    alloc: Global,
    form: &Form,
    words: &'a [String],
) -> Result<Said<'a>, WordsEnd>
    ensures { is_sound (form_of form.now) ≡ true → Hears (form_of form.now) (map string_bytes words.now) result }
{
    let parted = match part(alloc, form, words) {
        Ok(parted) => parted,
        Err(end) => return Err(end),
    };
    let Some(count) = form.takes.count_of(parted.file) else {
        return Err(WordsEnd::Usage);
    };
    let settings = match read_settings(alloc, form, parted.left.as_slice()) {
        Ok(settings) => settings,
        Err(end) => return Err(end),
    };
    let numbers = match settings.numbers(alloc, form.options) {
        Ok(numbers) => numbers,
        Err(end) => return Err(end),
    };
    let marks = match settings.marks(alloc, form.flags) {
        Ok(marks) => marks,
        Err(_) => return Err(WordsEnd::NoMemory),
    };
    Ok(Said {
        word: parted.file,
        count,
        numbers,
        marks,
    })
}
