/// Why the workers are to stop.
#[derive(Clone, Copy, Debug, PartialEq, Eq)]
pub enum Why {
    /// The root task has ended.
    Finished,
    /// A worker found no memory.
    NoMemory,
}

/// For each reason, whether it is there.
#[derive(Clone, Copy)]
pub struct Reasons {
    pub finished: bool,
    pub no_memory: bool,
}

impl Why {
    ghost use Rattle.std.specs.Prelude.{◌≡◌};
    ghost use Rattle.hv_cell.specs.Reasons.{bit_of};

    pub(crate) fn bit(self) -> u64
        ensures { result ≡ bit_of self }
    {
        match self {
            Why::Finished => 1,
            Why::NoMemory => 2,
        }
    }
}
