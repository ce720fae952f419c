//! The options and flags of a subcommand, read by clap.
ghost use Rattle.std.specs.Prelude.{◌≡◌, IfOk, MatchResult, false, map, true};
ghost use Rattle.clap.specs.Words.{app_of, kind_of, rule_of};
ghost use Rattle.hv_words.specs.Line.{form_of, setting_of};
ghost use Rattle.hv_words.specs.Rows.{is_sound};
ghost use Rattle.hv_words.specs.Settings.{AreMarksOf, AreNumbersOf, Lacks, entry_of, IsMarkOf, IsNumberOf, ReadsLeft, text_at};
ghost use Rattle.hv_words.specs.Reading.{app_by, bare_app, end_by, flag_rule, option_rule, with_rules};

use crate::order::WordsEnd;
use crate::subcommand::{Form, Setting};
use clap::builder::ValueParser;
use clap::error::ErrorKind;
use clap::{Arg, ArgAction, ArgMatches, Command, Error};
use std::alloc::{AllocError, Global};

/// What the options and flags say.
#[derive(Drop)]
pub(crate) struct Settings<'a> {
    matches: ArgMatches<'a>,
}

impl<'a> Settings<'a> {
    /// The number of the option, or what stands for it.
    fn number(&self, setting: &Setting) -> Option<u64>
        ensures { IsNumberOf (setting_of setting.now) (text_at self.now setting.now.name.now) result }
    {
        self.matches
            .get_one::<u64>(setting.name)
            .or(setting.fallback)
    }

    /// The number of each option by its name, unless there is none for one of them.
    pub(crate) fn numbers(
        &self,
        alloc: Global,
        options: &[Setting],
    ) -> Result<Vec<(&'static str, u64)>, WordsEnd>
        ensures { MatchResult result (λ v. AreNumbersOf self.now (map setting_of options.now) (map entry_of v.items)) (λ e. Lacks self.now (map setting_of options.now) e) }
    {
        let mut numbers = Vec::new(alloc);
        for setting in options {
            let Some(number) = self.number(setting) else {
                return Err(WordsEnd::Usage);
            };
            match numbers.push((setting.name, number)) {
                Ok(()) => {}
                Err(_) => return Err(WordsEnd::NoMemory),
            }
        }
        Ok(numbers)
    }

    /// Whether the flag is given.
    fn flag(&self, name: &str) -> bool
        ensures { IsMarkOf (text_at self.now name.now) result }
    {
        self.matches.get_flag(name)
    }

    /// Whether each flag is given, by its name.
    pub(crate) fn marks(
        &self,
        alloc: Global,
        flags: &[&'static str],
    ) -> Result<Vec<(&'static str, bool)>, AllocError>
        ensures { IfOk result (λ v. AreMarksOf self.now (map (λ s. s.now) flags.now) (map entry_of v.items)) }
    {
        let mut marks = Vec::new(alloc);
        for name in flags {
            marks.push((*name, self.flag(*name)))?;
        }
        Ok(marks)
    }
}

fn option_arg<'a>(alloc: Global, setting: &Setting) -> Arg<'a>
    ensures rule { rule_of result ≡ option_rule (setting_of setting.now) }
    ensures local { result.global ≡ false }
{
    Arg::new(alloc, setting.name)
        .long(setting.name)
        .action(ArgAction::Set)
        .value_parser(ValueParser::Unsigned(setting.least, setting.most))
}

fn flag_arg<'a>(alloc: Global, name: &'a str) -> Arg<'a>
    ensures rule { rule_of result ≡ flag_rule name.entry.now }
    ensures local { result.global ≡ false }
{
    Arg::new(alloc, name).long(name).action(ArgAction::SetTrue)
}

fn bare<'a>(alloc: Global) -> Command<'a>
    ensures { app_of result ≡ bare_app }
{
    Command::new(alloc, "hv")
        .no_binary_name(true)
        .disable_help_flag(true)
}

fn with_options<'a>(
    alloc: Global,
    command: Command<'a>,
    options: &[Setting],
) -> Result<Command<'a>, AllocError>
    ensures { IfOk result (λ c. app_of c ≡ with_rules (app_of command.entry) (map option_rule (map setting_of options.now))) }
{
    let mut command = command;
    for setting in options {
        command = command.arg(option_arg(alloc, setting))?;
    }
    Ok(command)
}

fn with_flags<'a>(
    alloc: Global,
    command: Command<'a>,
    flags: &[&'a str],
) -> Result<Command<'a>, AllocError>
    ensures { IfOk result (λ c. app_of c ≡ with_rules (app_of command.entry) (map flag_rule (map (λ s. s.now) flags.now))) }
{
    let mut command = command;
    for name in flags {
        command = command.arg(flag_arg(alloc, *name))?;
    }
    Ok(command)
}

/// A command of the options and flags alone.
fn command<'a>(alloc: Global, form: &Form) -> Result<Command<'a>, AllocError>
    ensures { IfOk result (λ c. app_of c ≡ app_by (form_of form.now)) }
{
    let command = with_options(alloc, bare(alloc), form.options)?;
    with_flags(alloc, command, form.flags)
}

fn end_of(error: Error) -> WordsEnd
    ensures { result ≡ end_by (kind_of error) }
{
    match error.kind() {
        ErrorKind::OutOfMemory => WordsEnd::NoMemory,
        _ => WordsEnd::Usage,
    }
}

/// Reads the options, each with its value behind it, and the flags.
pub(crate) fn read_settings<'a>(
    alloc: Global,
    form: &Form,
    left: &'a [&'a str],
) -> Result<Settings<'a>, WordsEnd>
    ensures { is_sound (form_of form.now) ≡ true → ReadsLeft (form_of form.now) (map (λ s. s.now) left.now) result }
{
    let command = match command(alloc, form) {
        Ok(command) => command,
        Err(_) => return Err(WordsEnd::NoMemory),
    };
    match command.try_get_matches_from(left) {
        Ok(matches) => Ok(Settings { matches }),
        Err(error) => Err(end_of(error)),
    }
}
