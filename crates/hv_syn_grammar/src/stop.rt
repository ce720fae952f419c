//! Why a rule stops.

use std::alloc::AllocError;

/// Why a production isn't read. But for want of memory the cursor then stands at the token in question.
#[derive(Clone, Copy, Debug, PartialEq, Eq)]
pub enum Stop {
    /// Nothing goes on with the next token.
    Off,
    /// The next token opens a bracket too many.
    Deep,
    /// There is no memory for a part of the tree.
    NoMemory,
}

impl From<AllocError> for Stop {
    ghost use Rattle.std.specs.Prelude.{◌≡◌};
    ghost use Rattle.hv_syn_grammar.specs.declared.stop.Stop.TheVariants.{NoMemory};

    ghost from_gives = { λ _ e. e ≡ NoMemory };

    fn from(_error: AllocError) -> Stop {
        Stop::NoMemory
    }
}
