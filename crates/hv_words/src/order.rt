//! Orders, and how words give one.
ghost use Rattle.std.specs.Prelude.{◌≡◌, map, string_bytes};
ghost use Rattle.hv_words.specs.Answers.{Answers, asked_of};
ghost use Rattle.hv_words.specs.Taken.{asked_by};
ghost use Rattle.hv_words.specs.Telling.{said_of};

use crate::said::{Said, read_said};
use crate::subcommand::{Form, STEPS, Subcommand, TRACE};
use std::alloc::Global;
use thiserror::Error;

/// What the words ask for.
#[derive(Debug, Drop)]
pub enum Order {
    Check {
        file: String,
    },
    Show {
        file: String,
    },
    Plain {
        file: String,
        steps: u64,
        trace: bool,
    },
    Run {
        file: String,
        steps: u64,
        trace: bool,
    },
}

/// Why words give no order.
#[derive(Clone, Copy, Debug, Error)]
pub enum WordsEnd {
    /// The command set doesn't take the words.
    #[error("the command set doesn't take these words")]
    Usage,
    #[error("out of memory")]
    NoMemory,
}

/// The order that the words ask for; they are those behind the program's name.
pub fn read_words(alloc: Global, words: &[String]) -> Result<Order, WordsEnd>
    ensures { Answers (map string_bytes words.now) result }
{
    let [name, rest @ ..] = words else {
        return Err(WordsEnd::Usage);
    };
    let Some(form) = Form::named(name.as_str()) else {
        return Err(WordsEnd::Usage);
    };
    let said = match read_said(alloc, &form, rest) {
        Ok(said) => said,
        Err(end) => return Err(end),
    };
    match String::from_str(alloc, said.word) {
        Ok(word) => Ok(order_of(form.subcommand, word, &said)),
        Err(_) => Err(WordsEnd::NoMemory),
    }
}

/// The order of a subcommand, by the positional and all that is said.
fn order_of(subcommand: Subcommand, word: String, said: &Said) -> Order
    ensures { asked_of result ≡ asked_by subcommand (record (said_of said.now) { word = string_bytes word }) }
{
    match subcommand {
        Subcommand::Check => Order::Check { file: word },
        Subcommand::Show => Order::Show { file: word },
        Subcommand::Plain => Order::Plain {
            file: word,
            steps: said.number(STEPS.name),
            trace: said.mark(TRACE),
        },
        Subcommand::Run => Order::Run {
            file: word,
            steps: said.number(STEPS.name),
            trace: said.mark(TRACE),
        },
    }
}
