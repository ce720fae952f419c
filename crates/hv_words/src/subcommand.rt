//! The table of subcommands, options and flags.
ghost use Rattle.std.specs.Prelude.{◌≡◌, find, map, option_map};
ghost use Rattle.std.specs.List.{list_any};
ghost use Rattle.std.specs.Str.{bytes_eq};
ghost use Rattle.clap.specs.Lexer.{strip_byte};
ghost use Rattle.hv_words.specs.Line.{form_of, kind_of, name_of};
ghost use Rattle.hv_words.specs.Taken.{flag_words, is_among, is_positional, option_words, row_named};
ghost use Rattle.hv_words.specs.Telling.{count_of};

use crate::number::number_in;

/// A subcommand, as its row in the table names it.
#[derive(Clone, Copy, Debug)]
pub(crate) enum Subcommand {
    Check,
    Show,
    Plain,
    Run,
}

/// What the one positional of a subcommand is.
#[derive(Clone, Copy, Debug)]
pub(crate) enum Positional {
    /// The name of a file.
    File,
    /// A number of this range.
    Number { least: u64, most: u64 },
}

/// An option by its name without hyphens, the numbers that it takes, and the number that stands for
/// it where it isn't given; without such a number it must be given.
#[derive(Clone, Copy, Debug)]
pub(crate) struct Setting {
    pub(crate) name: &'static str,
    pub(crate) least: u64,
    pub(crate) most: u64,
    pub(crate) fallback: Option<u64>,
}

/// A row of the table: a subcommand, its name, its positional, its options, and the names of its flags.
#[derive(Clone, Copy, Debug)]
pub(crate) struct Form {
    pub(crate) subcommand: Subcommand,
    pub(crate) name: &'static str,
    pub(crate) takes: Positional,
    pub(crate) options: &'static [Setting],
    pub(crate) flags: &'static [&'static str],
}

pub(crate) const STEPS: Setting = Setting {
    name: "steps",
    least: 1,
    most: 1_073_741_824,
    fallback: Some(10_000_000),
};

pub(crate) const TRACE: &str = "trace";

const ROWS: [Form; 4] = [
    Form {
        subcommand: Subcommand::Check,
        name: "check",
        takes: Positional::File,
        options: &[],
        flags: &[],
    },
    Form {
        subcommand: Subcommand::Show,
        name: "show",
        takes: Positional::File,
        options: &[],
        flags: &[],
    },
    Form {
        subcommand: Subcommand::Plain,
        name: "plain",
        takes: Positional::File,
        options: &[STEPS],
        flags: &[TRACE],
    },
    Form {
        subcommand: Subcommand::Run,
        name: "run",
        takes: Positional::File,
        options: &[STEPS],
        flags: &[TRACE],
    },
];

/// What a word is behind the name of a subcommand, where no value is waited for.
#[derive(Clone, Copy, Debug)]
pub(crate) enum Kind {
    /// An option, whose value is the next word.
    Valued,
    Flag,
    Positional,
    Unknown,
}

fn is_positional(word: &str) -> bool
    ensures { result ≡ is_positional word.now }
{
    match word.as_bytes() {
        [] => false,
        [first, rest @ ..] => *first != b'-' || rest.is_empty(),
    }
}

pub(crate) fn is_among(word: &str, words: &[&str]) -> bool
    ensures { result ≡ is_among word.now (map (λ s. s.now) words.now) }
{
    for other in words {
        if word == *other {
            return true;
        }
    }
    false
}

fn without_hyphen(word: &str) -> Option<&str>
    ensures { option_map (λ s. s.now) result ≡ strip_byte 45 word.now }
{
    word.strip_prefix('-')
}

/// The name in the word of an option or a flag.
fn name_of(word: &str) -> Option<&str>
    ensures { option_map (λ s. s.now) result ≡ name_of word.now }
{
    without_hyphen(without_hyphen(word)?)
}

impl Positional {
    /// The number that the word is, or 0 where it names a file; none where it isn't of this kind.
    pub(crate) fn count_of(self, word: &str) -> Option<u64>
        ensures { result ≡ count_of self word.now }
    {
        match self {
            Positional::File => Some(0),
            Positional::Number { least, most } => number_in(word, least, most),
        }
    }
}

/// The first of the rows with the name.
fn first_named(rows: &[Form], name: &str) -> Option<Form>
    ensures { option_map form_of result ≡ find (λ f. bytes_eq name.now f.name) (map form_of rows.now) }
{
    for form in rows {
        if name == form.name {
            return Some(*form);
        }
    }
    None
}

impl Form {
    /// The row of the name.
    pub(crate) fn named(name: &str) -> Option<Form>
        ensures { option_map form_of result ≡ row_named name.now }
    {
        first_named(&ROWS, name)
    }

    fn has_option(&self, name: &str) -> bool
        ensures { result ≡ list_any (λ o. bytes_eq o.name.now name.now) self.now.options.now }
    {
        self.options.iter().any(|option| option.name == name)
    }

    fn is_option(&self, word: &str) -> bool
        ensures { result ≡ is_among word.now (option_words (form_of self.now)) }
    {
        match name_of(word) {
            Some(name) => self.has_option(name),
            None => false,
        }
    }

    fn is_flag(&self, word: &str) -> bool
        ensures { result ≡ is_among word.now (flag_words (form_of self.now)) }
    {
        match name_of(word) {
            Some(name) => is_among(name, self.flags),
            None => false,
        }
    }

    pub(crate) fn kind_of(&self, word: &str) -> Kind
        ensures { result ≡ kind_of (form_of self.now) word.now }
    {
        if self.is_option(word) {
            Kind::Valued
        } else if self.is_flag(word) {
            Kind::Flag
        } else if is_positional(word) {
            Kind::Positional
        } else {
            Kind::Unknown
        }
    }
}
