use crate::said::{Said, read_said};
use crate::subcommand::{Form, Positional, STEPS, Setting, Subcommand};
use crate::{Order, WordsEnd, read_words};
use std::alloc::{AllocError, Global};
use std::test::Fail;

static TAKEN: [(&[&str], &str); 38] = [
    (&["check", "F"], "check F"),
    (&["check", "-"], "check -"),
    (&["show", "F"], "show F"),
    (&["show", "-"], "show -"),
    (&["plain", "F"], "plain F 10000000 false"),
    (&["run", "F"], "run F 10000000 false"),
    (&["run", "-"], "run - 10000000 false"),
    // the positional first, in the middle and last
    (&["run", "F", "--steps", "13"], "run F 13 false"),
    (&["run", "--steps", "13", "F"], "run F 13 false"),
    (&["run", "F", "--steps", "13", "--trace"], "run F 13 true"),
    (&["run", "F", "--trace", "--steps", "13"], "run F 13 true"),
    (&["run", "--steps", "13", "F", "--trace"], "run F 13 true"),
    (&["run", "--trace", "F", "--steps", "13"], "run F 13 true"),
    (&["run", "--steps", "13", "--trace", "F"], "run F 13 true"),
    (&["run", "--trace", "--steps", "13", "F"], "run F 13 true"),
    (&["run", "F", "--trace"], "run F 10000000 true"),
    (&["run", "--trace", "F"], "run F 10000000 true"),
    (&["plain", "--trace", "--steps", "7", "-"], "plain - 7 true"),
    (&["plain", "-", "--trace"], "plain - 10000000 true"),
    // the least and the greatest number, and zeros before it
    (&["plain", "-", "--steps", "1"], "plain - 1 false"),
    (
        &["run", "F", "--steps", "1073741824"],
        "run F 1073741824 false",
    ),
    (&["run", "F", "--steps", "01"], "run F 1 false"),
    (
        &["run", "F", "--steps", "00000000000000000013"],
        "run F 13 false",
    ),
    (
        &["run", "F", "--steps", "00000000001073741824"],
        "run F 1073741824 false",
    ),
    (&["run", "F", "--steps", "9876543"], "run F 9876543 false"),
    // a name that also names a subcommand, an option or a number
    (&["run", "run"], "run run 10000000 false"),
    (&["check", "check"], "check check"),
    (&["show", "plain"], "show plain"),
    (&["plain", "gen", "--trace"], "plain gen 10000000 true"),
    (&["check", "steps"], "check steps"),
    (&["run", "5"], "run 5 10000000 false"),
    (&["run", "help"], "run help 10000000 false"),
    // other characters
    (&["run", "é"], "run é 10000000 false"),
    (&["check", "名前.hv"], "check 名前.hv"),
    (&["run", "F-"], "run F- 10000000 false"),
    (&["run", "=--steps"], "run =--steps 10000000 false"),
    (&["check", " "], "check  "),
    (&["check", "–trace"], "check –trace"),
];

static REFUSED: [&[&str]; 92] = [
    // no subcommand, or none of this name
    &[],
    &[""],
    &["", "F"],
    &["walk", "F"],
    &["Run", "F"],
    &["RUN", "F"],
    &["ru", "F"],
    &["runn", "F"],
    &["run ", "F"],
    &["-", "F"],
    &["F", "run"],
    &["--steps", "5", "run", "F"],
    &["--trace", "run", "F"],
    // help and versions
    &["--help"],
    &["--version"],
    &["-h"],
    &["-V"],
    &["help"],
    &["help", "run"],
    &["run", "--help"],
    &["run", "F", "--help"],
    &["run", "F", "-h"],
    &["check", "F", "--version"],
    // no positional, two, or none of the form
    &["run"],
    &["check"],
    &["show"],
    &["plain"],
    &["run", "--trace"],
    &["run", "--steps", "5"],
    &["run", "F", "F"],
    &["run", "F", "G"],
    &["run", "F", "--trace", "G"],
    &["check", "-", "-"],
    &["check", "F", "–trace"],
    &["run", ""],
    &["run", "", "F"],
    &["run", "F", ""],
    &["run", "-5"],
    &["run", "-é"],
    &["run", "--", "F"],
    &["run", "F", "--"],
    &["run", "F", "-t"],
    &["run", "F", "--Trace"],
    &["run", "F", "--trac"],
    &["run", "F", "--ste", "5"],
    // an option without its value
    &["run", "F", "--steps"],
    &["run", "--steps"],
    &["run", "--steps", "F"],
    &["run", "F", "--steps=5"],
    &["run", "F", "--steps", "--trace"],
    &["run", "F", "--steps", "-"],
    &["run", "F", "--steps", "--steps"],
    &["run", "F", "--steps", "--steps", "5"],
    &["run", "F", "--steps", "5", "5"],
    // twice
    &["run", "--trace", "F", "--trace"],
    &["run", "F", "--trace", "--trace"],
    &["run", "F", "--steps", "5", "--steps", "5"],
    &["plain", "--steps", "5", "F", "--steps", "6"],
    // numbers that aren't of the form, or out of the range
    &["run", "F", "--steps", "0"],
    &["run", "F", "--steps", "00000000000000000000"],
    &["run", "F", "--steps", "1073741825"],
    &["plain", "F", "--steps", "1073741825"],
    &["run", "F", "--steps", "000000000000000000013"],
    &["run", "F", "--steps", "99999999999999999999"],
    &["run", "F", "--steps", "18446744073709551617"],
    &["run", "F", "--steps", "+13"],
    &["run", "F", "--steps", "-5"],
    &["run", "F", "--steps", ""],
    &["run", "F", "--steps", " 5"],
    &["run", "F", "--steps", "5 "],
    &["run", "F", "--steps", "1_000"],
    &["run", "F", "--steps", "0x5"],
    &["run", "F", "--steps", "1e3"],
    &["run", "F", "--steps", "５"],
    &["run", "F", "--steps", "٣"],
    // what another subcommand has
    &["check", "F", "--steps", "5"],
    &["check", "F", "--trace"],
    &["show", "F", "--steps", "5"],
    &["show", "F", "--trace"],
    // what isn't built yet
    &["run", "F", "--workers", "1"],
    &["run", "F", "--workers", "65"],
    &["run", "F", "--reserve", "0"],
    &["run", "F", "--edition", "1"],
    &["run", "F", "--events"],
    &["replay", "F"],
    &["replay", "F", "--seed", "1"],
    &["gen", "3"],
    &["gen", "3", "--trace"],
    &["gen", "0"],
    &["code", "-"],
    &["exec", "-"],
    &["debug", "-", "--seed", "1", "--moves", "s"],
];

const SEED: Setting = Setting {
    name: "seed",
    least: 0,
    most: 18_446_744_073_709_551_615,
    fallback: None,
};

// a row with an option that must be given
const SEEDED: Form = Form {
    subcommand: Subcommand::Run,
    name: "seeded",
    takes: Positional::File,
    options: &[SEED, STEPS],
    flags: &["events"],
};

// a row whose positional is a number
const COUNTED: Form = Form {
    subcommand: Subcommand::Run,
    name: "counted",
    takes: Positional::Number {
        least: 1,
        most: 4096,
    },
    options: &[],
    flags: &["events"],
};

static OF_ROWS: [(Form, &[&str], &str); 29] = [
    (SEEDED, &["F", "--seed", "7"], "F 0 7 10000000 false"),
    (
        SEEDED,
        &["--seed", "0", "F", "--events"],
        "F 0 0 10000000 true",
    ),
    (
        SEEDED,
        &["--steps", "5", "--seed", "7", "-"],
        "- 0 7 5 false",
    ),
    (
        SEEDED,
        &["--seed", "7", "--steps", "5", "-"],
        "- 0 7 5 false",
    ),
    (
        SEEDED,
        &["F", "--seed", "18446744073709551615"],
        "F 0 18446744073709551615 10000000 false",
    ),
    (SEEDED, &["F", "--seed", "18446744073709551616"], "usage"),
    (SEEDED, &["F"], "usage"),
    (SEEDED, &["F", "--steps", "5"], "usage"),
    (SEEDED, &["F", "--events"], "usage"),
    (SEEDED, &["F", "--seed"], "usage"),
    (SEEDED, &["F", "--seed", "--events"], "usage"),
    (SEEDED, &["F", "--seed", "7", "--seed", "7"], "usage"),
    (SEEDED, &["--seed", "7"], "usage"),
    (SEEDED, &["F", "--seed", "x"], "usage"),
    (COUNTED, &["1"], "1 1 0 0 false"),
    (COUNTED, &["4096"], "4096 4096 0 0 false"),
    (COUNTED, &["--events", "3"], "3 3 0 0 true"),
    (
        COUNTED,
        &["00000000000000000003"],
        "00000000000000000003 3 0 0 false",
    ),
    (COUNTED, &["0"], "usage"),
    (COUNTED, &["4097"], "usage"),
    (COUNTED, &["18446744073709551617"], "usage"),
    (COUNTED, &["000000000000000000003"], "usage"),
    (COUNTED, &["F"], "usage"),
    (COUNTED, &["-"], "usage"),
    (COUNTED, &["+3"], "usage"),
    (COUNTED, &["-3"], "usage"),
    (COUNTED, &["3", "3"], "usage"),
    (COUNTED, &["3", "--seed", "7"], "usage"),
    (COUNTED, &[], "usage"),
];

fn owned(alloc: Global, words: &[&str]) -> Result<Vec<String>, AllocError> {
    let mut all = Vec::new(alloc);
    for word in words {
        all.push(String::from_str(alloc, *word)?)?;
    }
    Ok(all)
}

fn text_of(alloc: Global, order: &Order) -> Result<String, AllocError> {
    match order {
        Order::Check { file } => format!(in alloc; "check {file}"),
        Order::Show { file } => format!(in alloc; "show {file}"),
        Order::Plain { file, steps, trace } => format!(in alloc; "plain {file} {steps} {trace}"),
        Order::Run { file, steps, trace } => format!(in alloc; "run {file} {steps} {trace}"),
    }
}

#[test]
fn words_that_are_taken_give_their_order(rt: HostRuntime) -> Result<(), Fail> {
    for (words, want) in TAKEN.iter() {
        let given = owned(rt.alloc(), words)?;
        let order = read_words(rt.alloc(), given.as_slice())?;
        let text = text_of(rt.alloc(), &order)?;
        assert_eq!(rt; text.as_str(), *want, "for {words:?}");
    }
    Ok(())
}

#[test]
fn other_words_are_usage(rt: HostRuntime) -> Result<(), Fail> {
    for words in REFUSED.iter() {
        let given = owned(rt.alloc(), words)?;
        let is_usage = matches!(
            read_words(rt.alloc(), given.as_slice()),
            Err(WordsEnd::Usage)
        );
        assert!(rt; is_usage, "for {words:?}");
    }
    Ok(())
}

fn text_said(alloc: Global, said: &Said) -> Result<String, AllocError> {
    let (word, count) = (said.word, said.count);
    let (seed, steps) = (said.number("seed"), said.number("steps"));
    let events = said.mark("events");
    format!(in alloc; "{word} {count} {seed} {steps} {events}")
}

#[test]
fn rows_of_every_column_are_read(rt: HostRuntime) -> Result<(), Fail> {
    for (form, words, want) in OF_ROWS.iter() {
        let given = owned(rt.alloc(), words)?;
        let text = match read_said(rt.alloc(), form, given.as_slice()) {
            Ok(said) => text_said(rt.alloc(), &said)?,
            Err(_) => String::from_str(rt.alloc(), "usage")?,
        };
        assert_eq!(rt; text.as_str(), *want, "for {words:?}");
    }
    Ok(())
}
