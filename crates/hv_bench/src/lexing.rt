// How many tokens a source has, for `bench/lex.sh`: it is lexed as often as is asked, since one round is too short to time.
use hv_token::lex;
use std::alloc::{AllocError, Global};

/// The number of tokens, where the source isn't too long. The count of rounds is a text, and 1 where it isn't one.
pub fn count_tokens(alloc: Global, rounds: &str, source: &[u8]) -> Result<String, AllocError> {
    if source.len() > 1_048_576 {
        return String::from_str(alloc, "too long\n");
    }
    let rounds = match rounds.parse::<u32>() {
        Ok(rounds) => rounds,
        Err(_) => 1,
    };
    let mut count = 0;
    for _round in 0..rounds {
        count = lex(alloc, source)?.tokens.len();
    }
    format!(in alloc; "{count} tokens\n")
}
